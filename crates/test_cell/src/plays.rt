//! What is played in a cell that a type names.
ghost use Rattle.std.specs.Prelude.{◌≡◌};

use crate::acts::{Act, Player, Rounds, SPENT};
use crate::counted_cell::{CountedCell, Terms};
use crate::crew::{Crew, Players, play, shared};
use crate::named::{CellWriter, Named, end};
use snapshot_cell::Naming;
use std::alloc::Global;
use std::marker::Brand;
use std::process::Abort;
use std::thread::Threads;

/// What is played: by threads, where there are some, and then by a script.
#[derive(Clone, Copy)]
struct Play {
    terms: Terms,
    crew: Option<Crew>,
    leaks: bool,
    script: &'static [Rounds],
}

/// Plays at a cell: the publisher and the readers come back.
fn play_on<'a, R: Abort + Threads + Sync, N: Naming + Send + Sync>(
    rt: &R,
    alloc: Global,
    players: Players<'a, N>,
    what: Play,
) -> Players<'a, N> {
    let Players {
        writer,
        mut readers,
    } = match what.crew {
        Some(crew) => play(rt, alloc, players, crew),
        None => players,
    };
    let mut player = Player::new(alloc, writer, readers.pop().expect(rt, "a reader"));
    assert_eq!(rt; player.first_wrong(what.script), None);
    let (writer, reader) = player.end();
    readers.push(reader).ok().expect(rt, "memory");
    Players { writer, readers }
}

/// Plays in a cell, whose end is refused first, since a reader is missing or an owner is out. It is ended then; while an owner is out it can't be, and
/// there is a panic that says so.
fn play_in<R: Abort + Threads + Sync, N: Naming + Send + Sync>(
    rt: &R,
    alloc: Global,
    counted_cell: CountedCell,
    what: Play,
)
    requires { counted_cell.cell ≡ N.cell }
{
    let Named {
        cell,
        publisher,
        readers,
        tally,
    } = Named::<N>::of(rt, alloc, counted_cell).in_use(rt, alloc, what.leaks);
    let writer = CellWriter::new(alloc, &cell, publisher, shared(rt, &tally));
    let Players { writer, readers } = play_on(rt, alloc, Players { writer, readers }, what);
    let publisher = writer.into_publisher();
    if what.leaks {
        panic!(rt; "an owner is out");
    }
    end(rt, cell, publisher, readers, &tally);
}

/// Plays in a cell of its own.
fn played<R: Abort + Threads + Sync>(rt: &R, alloc: Global, what: Play) {
    let counted_cell = CountedCell::of(rt, alloc, what.terms);
    play_in::<R, Brand>(rt, alloc, counted_cell, what);
}

/// A cell of two readers, of few versions, and nothing that is done with it.
const NOTHING: Play = Play {
    terms: Terms {
        readers: 2,
        grants: None,
        values: 10,
        sleeper: None,
    },
    crew: None,
    leaks: false,
    script: &[],
};

/// An owner keeps its version whatever is published after it, until its last owner is let go, and a load after a publish gives the new one, as the newest
/// is.
const KEPT: &[Rounds] = &[(
    1,
    &[
        (Act::Load, 0, Some(0), 0),
        (Act::Publish, 0, Some(0), 0),
        (Act::Alive, 0, Some(0), 0),
        (Act::Alive, 1, Some(0), 0),
        (Act::Release, 1, None, 0),
        (Act::Load, 0, Some(1), 0),
        (Act::NewestWithWeak, 0, Some(1), 0),
        (Act::Alive, 0, Some(0), 0),
        (Act::Alive, 2, Some(1), 0),
        (Act::Alive, 3, Some(1), 0),
        (Act::Release, 0, Some(0), 1),
        (Act::Release, 2, None, 0),
        (Act::Release, 3, None, 0),
    ],
)];

/// Three grants are three loads, and then there is none; the owners of the three keep their versions.
const THREE_GRANTS: &[Rounds] = &[(
    1,
    &[
        (Act::Grants, 0, Some(3), 0),
        (Act::Load, 0, Some(0), 0),
        (Act::Publish, 0, Some(0), 0),
        (Act::Release, 1, None, 0),
        (Act::Load, 0, Some(1), 0),
        (Act::Load, 0, Some(1), 0),
        (Act::Load, 0, None, 0),
        (Act::Load, 0, None, 0),
        (Act::Grants, 0, Some(0), 0),
        (Act::Alive, 0, Some(0), 0),
        (Act::Alive, 2, Some(1), 0),
        (Act::Alive, 3, Some(1), 0),
        (Act::Release, 0, Some(0), 1),
        (Act::Alive, 2, Some(1), 0),
        (Act::Alive, 3, Some(1), 0),
    ],
)];

/// No grant is no load.
const NO_GRANT: &[Rounds] = &[(
    1,
    &[
        (Act::Load, 0, None, 0),
        (Act::NewestWithWeak, 0, None, 0),
        (Act::Grants, 0, Some(0), 0),
    ],
)];

/// A grant that a load has taken is none for a clone or an upgrade; the owner and the weak owner stay.
const ONE_GRANT: &[Rounds] = &[(
    1,
    &[
        (Act::Load, 0, Some(0), 0),
        (Act::Weaken, 0, Some(0), 0),
        (Act::Clone, 0, None, 0),
        (Act::Raise, 0, Some(SPENT), 0),
        (Act::Grants, 0, Some(0), 0),
        (Act::Alive, 0, Some(0), 0),
        (Act::Release, 0, None, 0),
        (Act::Fade, 0, None, 0),
    ],
)];

/// A weak owner gives an owner of its very version, for a grant, as long as one is left; after the last one's release it gives none, for none, however
/// often it is asked. It is the last that knows the version then, and makes its slot free. A publisher can give 2^32 weak owners (own).
const RAISED: &[Rounds] = &[(
    1,
    &[
        (Act::Load, 0, Some(0), 0),
        (Act::Notes, 0, Some(1 << 32), 0),
        (Act::Weaken, 0, Some(0), 0),
        (Act::Notes, 0, Some((1 << 32) - 1), 0),
        (Act::Publish, 0, Some(0), 0),
        (Act::Release, 1, None, 0),
        (Act::Grants, 0, Some(8), 0),
        (Act::Raise, 0, Some(0), 0),
        (Act::Grants, 0, Some(7), 0),
        (Act::Alive, 0, Some(0), 0),
        (Act::Release, 0, None, 0),
        (Act::Alive, 2, Some(0), 0),
        (Act::Release, 2, Some(0), 1),
        (Act::Raise, 0, None, 0),
        (Act::Raise, 0, None, 0),
        (Act::Grants, 0, Some(7), 0),
        (Act::Fade, 0, Some(0), 0),
    ],
)];

/// An owner and a weak owner of the newest version, for one grant and one note, and a clone for another grant. The weak owner goes before the owners do:
/// it isn't the last then, and the last owner's release makes the slot free.
const FADED_FIRST: &[Rounds] = &[(
    1,
    &[
        (Act::Publish, 0, Some(0), 0),
        (Act::Release, 0, Some(0), 1),
        (Act::NewestWithWeak, 0, Some(1), 0),
        (Act::Notes, 0, Some((1 << 32) - 1), 0),
        (Act::Clone, 1, Some(1), 0),
        (Act::Grants, 0, Some(7), 0),
        (Act::Publish, 0, Some(1), 0),
        (Act::Release, 3, None, 0),
        (Act::Meet, 0, Some(2), 0),
        (Act::Fade, 0, None, 0),
        (Act::Alive, 1, Some(1), 0),
        (Act::Release, 1, None, 0),
        (Act::Release, 2, Some(1), 1),
    ],
)];

/// The 64th publication is refused while 63 owners and the last version hold a slot each. The last version is loaded all the same. Once one owner is let
/// go the value that was refused is published, and all slots are in use again.
const ALL_OWNED: &[Rounds] = &[
    (63, &[(Act::Publish, 0, Some(0), 0)]),
    (
        1,
        &[
            (Act::Publish, 0, None, 0),
            (Act::Load, 0, Some(63), 0),
            (Act::Release, 0, Some(0), 1),
            (Act::Publish, 0, Some(63), 0),
            (Act::Publish, 0, None, 0),
        ],
    ),
];

/// The same while 63 versions have weak owners alone: their values were dropped, and their slots aren't used again. Once one of these is let go the value
/// is published; the others give no owner, and each is the last that knows its version. What the newest version's owners are is as ever.
const ALL_KNOWN: &[Rounds] = &[
    (
        63,
        &[
            (Act::Publish, 0, Some(0), 0),
            (Act::Weaken, 0, Some(0), 0),
            (Act::Release, 0, Some(0), 1),
        ],
    ),
    (
        1,
        &[
            (Act::Publish, 0, None, 0),
            (Act::Fade, 0, Some(0), 0),
            (Act::Publish, 0, Some(63), 0),
            (Act::Weaken, 63, Some(63), 0),
            (Act::Release, 63, Some(63), 1),
        ],
    ),
    (63, &[(Act::Raise, 1, None, 0), (Act::Fade, 1, Some(1), 0)]),
    (
        1,
        &[
            (Act::NewestWithWeak, 0, Some(64), 0),
            (Act::Meet, 0, Some(64), 0),
            (Act::Alive, 64, Some(64), 0),
            (Act::Clone, 64, Some(64), 0),
            (Act::Raise, 64, Some(64), 0),
            (Act::Release, 65, None, 0),
            (Act::Release, 66, None, 0),
            (Act::Release, 64, None, 0),
            (Act::Fade, 64, None, 0),
        ],
    ),
];

/// Each old owner is held across 63 publications, of 100,000: its value is then dropped, once.
const ACROSS_63: &[Rounds] = &[
    (62, &[(Act::Publish, 0, Some(0), 0)]),
    (
        99_938,
        &[
            (Act::Publish, 0, Some(62), 0),
            (Act::Release, 0, Some(0), 1),
        ],
    ),
];

/// 63 slots are free, and K is 1 in each: as many values are published, each old version is kept weakly alone, and each of these weak owners is then the
/// last that knows its version.
const ALL_FREE: &[Rounds] = &[
    (
        63,
        &[
            (Act::Publish, 0, Some(0), 0),
            (Act::Weaken, 0, Some(0), 0),
            (Act::Release, 0, Some(0), 1),
        ],
    ),
    (1, &[(Act::Publish, 0, None, 0)]),
    (63, &[(Act::Raise, 0, None, 0), (Act::Fade, 0, Some(0), 0)]),
];

/// What is done beside an owner that is out.
const BESIDE: &[Rounds] = &[(
    1,
    &[
        (Act::Load, 0, Some(0), 0),
        (Act::Publish, 0, Some(0), 0),
        (Act::Load, 0, Some(1), 0),
        (Act::Release, 0, None, 0),
        (Act::Release, 1, None, 0),
    ],
)];

/// Scripts, with the grants that each reader has, and of how many values the drops are counted: as many as are published, and not that which stays refused.
const SCRIPTS: [(Option<u64>, usize, &[Rounds]); 9] = [
    (None, 10, KEPT),
    (Some(3), 10, THREE_GRANTS),
    (Some(0), 10, NO_GRANT),
    (Some(1), 10, ONE_GRANT),
    (Some(9), 10, RAISED),
    (Some(9), 10, FADED_FIRST),
    (None, 65, ALL_OWNED),
    (None, 65, ALL_KNOWN),
    (None, 100_001, ACROSS_63),
];

// Owners and weak owners of versions, and what is published, by scripts; a reader that was missing at the cell's first end is given back.
#[test]
fn scripts(rt: HostRuntime) {
    for (grants, values, script) in SCRIPTS {
        let terms = Terms {
            grants,
            values,
            ..NOTHING.terms
        };
        let what = Play {
            terms,
            script,
            ..NOTHING
        };
        played(&rt, rt.alloc(), what);
    }
}

// An owner is never let go, and all else goes on.
#[test]
#[should_panic(expected = "an owner is out")]
fn owner_of_a_named_cell_is_out(rt: HostRuntime) {
    let what = Play {
        leaks: true,
        script: BESIDE,
        ..NOTHING
    };
    played(&rt, rt.alloc(), what);
}

/// Plays by threads, and then all slots are free.
fn played_by<R: Abort + Threads + Sync>(
    rt: &R,
    alloc: Global,
    readers: usize,
    sleeper: Option<u64>,
    crew: Crew,
) {
    let terms = Terms {
        readers,
        grants: None,
        values: (crew.values as usize).saturating_add(64),
        sleeper,
    };
    let what = Play {
        terms,
        crew: Some(crew),
        leaks: false,
        script: ALL_FREE,
    };
    played(rt, alloc, what);
}

// Eight readers load 10,000 times each while 1,000 values are published: each owner has the value of its number, no reader's numbers go back, and each
// version but the last is dropped once.
#[test]
fn readers_and_publisher(rt: HostRuntime) {
    let crew = Crew {
        values: 1_000,
        raisers: 0,
        copies: 10_000,
        releases: false,
    };
    played_by(&rt, rt.alloc(), 8, None, crew);
}

// The last owner of version 0 has buried it, and its value sleeps in its drop, so the slot isn't free yet: 999 values are published and 20,000 loads made
// in the meantime.
#[test]
fn stopped_between_bury_and_free(rt: HostRuntime) {
    let crew = Crew {
        values: 1_000,
        raisers: 0,
        copies: 10_000,
        releases: true,
    };
    played_by(&rt, rt.alloc(), 2, Some(0), crew);
}

// 25,000 values are published, and four weak owners of each old version handed to four threads, which raise them and let go what they get, while one more
// thread loads and clones, a load, a clone, a look and two releases at a time: more than a million acts. Each version but the last is buried by one
// release and dropped once, and each upgrade that gave none is of one of those.
#[test]
fn weak_owners_are_raised_while_versions_go(rt: HostRuntime) {
    let crew = Crew {
        values: 25_000,
        raisers: 4,
        copies: 140_000,
        releases: false,
    };
    played_by(&rt, rt.alloc(), 5, None, crew);
}
