ghost use Rattle.casper_hub.specs.Standing.{EachHubStandsForSome};
ghost use Rattle.casper_hub.specs.Relying.{KeptItself, KeptAgain, CommitsNothingItself, CommitsNothingAgain, ImageStands, LiveWhileKept, PagesWhileKept, OwnsWhileKept, RightWhileKept, OwnsBehindRead, OwnsBehindWrite, RightBehindRead, RightBehindWrite, HitsReadWhatIsSeen};

/// What a client may rely on while others act, what stays while nothing is committed, what a hit leaves and reads, and what a hub
/// stands for. It does nothing.
pub fn hub_laws()
    ensures kept_itself { KeptItself }
    ensures kept_again { KeptAgain }
    ensures nothing_itself { CommitsNothingItself }
    ensures nothing_again { CommitsNothingAgain }
    ensures image { ImageStands }
    ensures live { LiveWhileKept }
    ensures pages { PagesWhileKept }
    ensures owns { OwnsWhileKept }
    ensures right { RightWhileKept }
    ensures owns_read { OwnsBehindRead }
    ensures owns_write { OwnsBehindWrite }
    ensures right_read { RightBehindRead }
    ensures right_write { RightBehindWrite }
    ensures seen { HitsReadWhatIsSeen }
    ensures stands { EachHubStandsForSome }
{}
