ghost use Rattle.casper_frozen.specs.Laws.{RefusalComesFirst};

/// The law of refusals: what a turn refuses for what is missing is first what is refused at once, as a contract of a call that does
/// nothing.
pub fn refusal_laws()
    ensures first { RefusalComesFirst }
{}
