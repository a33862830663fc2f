//! Laws of the definitions alone.
ghost use Rattle.pdn_worlds.specs.TwoWorlds.{OthersLaw, OwnTicketLaw, SecondWorldLaw, TranscriptLaw, WayBackLaw};
ghost use Rattle.pdn_worlds.specs.WholeFile.{FileBackLaw, FileLaw};

/// A query that is ready over one union of tables is ready over every union that agrees with it for
/// the site, with the same units and circuits: no limit is passed in one world alone. So what the
/// other laws say of two worlds holds for every such union.
pub fn agreeing_unions_are_worlds()
    ensures { SecondWorldLaw }
{}

/// A site learns nothing but what it may. Take one query, and two unions of tables that agree for a
/// site: its own tables are the same in both, and each public column of the other site has the same
/// set of values. Whatever the tape, what the site sees of the query over the first union, it sees
/// over the second on the changed tape, word by word: both sites' directories, and of each unit its
/// part of the dealt words and every word that it receives. The change is one to one
/// (`change_is_undone`), so on a uniformly drawn tape each view is as likely in one world as in the
/// other (the simulation argument of Goldreich, Micali, Wigderson 1987 and Beaver 1991, with a
/// bijection in place of a simulator).
pub fn sites_see_the_same()
    ensures { TranscriptLaw }
{}

/// The change of a query's tape is one to one: the change from the second world to the first, made
/// after it, gives every word of the tape back.
pub fn change_is_undone()
    ensures { WayBackLaw }
{}

/// The change touches the words of the query's own sections alone, and these are the same in both
/// worlds: words of another ticket, of a unit with no section, or past a section's end stay.
pub fn other_words_are_kept()
    ensures { OthersLaw }
{}

/// What a site sees of a query depends on the tape by the words of the query's ticket alone. This
/// holds for every query that is ready, whatever its tables.
pub fn views_read_their_own_ticket()
    ensures { OwnTicketLaw }
{}

/// A whole file of queries, each with a ticket of its own, and each over two unions that agree for
/// the site: when the changes of all of them are made, one after the other, the site sees of every
/// query at once the same in both worlds. The changes with the worlds exchanged give every word of
/// the tape back.
pub fn files_look_the_same()
    ensures views { FileLaw }
    ensures back { FileBackLaw }
{}
