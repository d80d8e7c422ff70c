ghost use Rattle.std.specs.Prelude.{◌≡◌};
ghost use Rattle.casper_app.specs.Outlet.{keeps as keeps_in, writes as writes_in};

/// What becomes of the answers.
#[derive(Clone, Copy, Debug, PartialEq, Eq)]
pub enum Outlet {
    /// Each is written before the next line is read, and kept.
    Written,
    /// They are kept alone.
    Kept,
    /// They are left out.
    LeftOut,
}

impl Outlet {
    /// Whether answers are kept.
    pub(crate) fn keeps(self) -> bool
        ensures { result ≡ keeps_in self }
    {
        match self {
            Outlet::Written | Outlet::Kept => true,
            Outlet::LeftOut => false,
        }
    }

    /// Whether answers are written.
    pub(crate) fn writes(self) -> bool
        ensures { result ≡ writes_in self }
    {
        match self {
            Outlet::Written => true,
            Outlet::Kept | Outlet::LeftOut => false,
        }
    }
}
