use crate::Moves;
use std::marker::Model;

/// Where a commit puts its pages and their map blocks. Contracts see the two lists.
#[derive(Drop)]
pub struct Plan {
    /// The changed pages with their new frames, in rising order.
    pub pages: Moves,
    /// Their map blocks with their new frames, in rising order.
    pub maps: Moves,
}

impl Model for Plan {
    ghost use Rattle.casper_map.specs.Planned.{Planned};

    ghost Value = { Planned };

    ghost view = { λ plan. record { pages = plan.pages; maps = plan.maps } };
}
