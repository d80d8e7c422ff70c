ghost use Rattle.casper_caches.specs.HeldPages.{EachPageIsHeldOnce, EachCacheIsWithin};
ghost use Rattle.casper_caches.specs.CacheLaws.{EachHitComesFirst, EachOpeningKeepsTheOrder, EachOpeningGainsNothing, EachOpeningKeepsTheUnasked, EachOpeningKeepsToRead, EachServeOnlyOpens, EachRefusedAcquireOnlyOpens, EachGrantPutsItsPagesFirst, EachGrantGivesUpTheOldest};
ghost use Rattle.casper_caches.specs.LineLaws.{EachHeldReadIsMade, EachHeldWriteIsMade, EachHeldLineIsMade};

/// At every moment of every run whose acquires name one to four rising pages, and whose caches have room for four at least,
/// each client holds each page once at most, and no more pages than its cache has room for. It does nothing.
pub fn law_of_held_pages()
    ensures once { EachPageIsHeldOnce }
    ensures within { EachCacheIsWithin }
{}

/// In each step of every run a call over a held page brings the page to the front and leaves the others in their order. What the
/// opening of a turn leaves stands in its order, and is no more than before: a page that nobody else asks for stays with its
/// right, unless pages are handed in, and a page that nobody else asks to write stays for reading at least. A serve, and an
/// acquire that is refused, leave just that. A granted acquire puts its pages in front, the last of them first, and of the
/// others leaves those that were used last, as many as there is room for. It does nothing.
pub fn law_of_caches()
    ensures hit { EachHitComesFirst }
    ensures order { EachOpeningKeepsTheOrder }
    ensures less { EachOpeningGainsNothing }
    ensures unasked { EachOpeningKeepsTheUnasked }
    ensures reading { EachOpeningKeepsToRead }
    ensures serve { EachServeOnlyOpens }
    ensures refusal { EachRefusedAcquireOnlyOpens }
    ensures front { EachGrantPutsItsPagesFirst }
    ensures oldest { EachGrantGivesUpTheOldest }
{}

/// A read or a write of a live client that holds its page with the right, with room for one call, is answered the value that the
/// client sees or Ok, whatever the outside does, and changes nothing but the client's own part. So after a heap line is granted
/// its pages, each of its calls is so answered, up to 600 of them. It does nothing.
pub fn law_of_lines()
    ensures read { EachHeldReadIsMade }
    ensures write { EachHeldWriteIsMade }
    ensures line { EachHeldLineIsMade }
{}
