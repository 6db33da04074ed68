//! Shared signers that are closed with the passes of their steps, and with others.
ghost use Rattle.std.specs.Prelude.{◌<◌, length};

use crate::signers::{KeySigner, desk_of, head, signer_of};
use fixtures::{Key, UntilNow};
use sequential_signer::Event;
use sign_base::CallId;
use signer_shared::{Book, CloseError, Pass};
use std::alloc::Global;
use std::process::Abort;
use std::sync::Wait;

/// Begins of calls of the first handle: the signer of four that are set up alike, the pass of four, the
/// call's number. Then the passes with which the first signer is closed, each by its place among those that
/// are left. Then the length of the settled journal, or the cause.
type Row = (
    &'static [(usize, usize, u64)],
    &'static [usize],
    Result<usize, CloseError>,
);

static ROWS: [Row; 12] = [
    (&[], &[], Ok(0)),
    (&[(0, 0, 1)], &[1, 0], Ok(1)),
    (&[(0, 0, 1), (0, 1, 2)], &[0, 0], Ok(2)),
    (
        &[(0, 0, 1), (0, 1, 2), (0, 0, 3), (0, 0, 3)],
        &[1, 0],
        Ok(4),
    ),
    (
        &[(0, 0, 1), (0, 1, 2)],
        &[0],
        Err(CloseError::Absent { have: 1, want: 2 }),
    ),
    (
        &[(0, 0, 1), (1, 0, 1)],
        &[0],
        Err(CloseError::Absent { have: 2, want: 1 }),
    ),
    (
        &[(0, 2, 1), (0, 2, 2), (1, 1, 2), (1, 0, 1)],
        &[0, 0],
        Err(CloseError::Differs {
            pass: 0,
            at: 0,
            place: 1,
        }),
    ),
    (
        &[(0, 2, 1), (0, 0, 2), (1, 1, 2)],
        &[0, 0],
        Err(CloseError::Differs {
            pass: 1,
            at: 0,
            place: 0,
        }),
    ),
    (
        &[(0, 2, 1), (0, 2, 2), (1, 1, 1), (1, 0, 2), (2, 0, 1)],
        &[0],
        Err(CloseError::Falls { pass: 0, at: 1 }),
    ),
    (
        &[(0, 2, 1), (0, 2, 1), (1, 0, 1), (2, 1, 1)],
        &[0, 0],
        Err(CloseError::Twice {
            place: 0,
            first: 0,
            second: 1,
        }),
    ),
    (
        &[
            (0, 3, 1),
            (0, 3, 2),
            (0, 3, 3),
            (1, 0, 1),
            (2, 1, 1),
            (3, 2, 1),
        ],
        &[0, 0, 0],
        Err(CloseError::Twice {
            place: 0,
            first: 0,
            second: 1,
        }),
    ),
    (
        &[
            (0, 3, 1),
            (0, 3, 2),
            (0, 3, 3),
            (0, 3, 4),
            (1, 2, 1),
            (1, 0, 2),
            (2, 1, 1),
            (2, 1, 2),
        ],
        &[0, 0, 0],
        Err(CloseError::Twice {
            place: 0,
            first: 1,
            second: 2,
        }),
    ),
];

/// Four signers that are set up alike, and four passes.
#[derive(Drop)]
struct Four {
    signers: Vec<KeySigner>,
    passes: Vec<Pass<Key>>,
}

impl Four {
    fn new(alloc: Global) -> Option<Four> {
        let mut four = Four {
            signers: Vec::new(alloc),
            passes: Vec::new(alloc),
        };
        for _ in 0..4 {
            four.signers.push(signer_of(alloc)?).ok()?;
            four.passes.push(Pass::new(alloc)).ok()?;
        }
        Some(four)
    }

    /// A call of the first handle is begun at this signer, through this pass.
    fn begin<R: Wait + Abort>(&mut self, rt: &R, signer: usize, pass: usize, begin: &Event<Key>) {
        let signer = self.signers.get(signer).expect(rt, "a signer");
        let pass = self.passes.get_mut(pass).expect(rt, "a pass");
        let reply = signer.step(rt, pass, begin);
        assert!(rt; !reply.is_out_of_memory());
    }

    /// How the first signer is closed with the passes at these places, each taken out before the next.
    fn close<R: Abort>(self, rt: &R, alloc: Global, places: &[usize]) -> Result<usize, CloseError> {
        let Four {
            mut signers,
            mut passes,
        } = self;
        let passes = taken(rt, alloc, &mut passes, places);
        assert!(rt; !signers.is_empty());
        close_with(signers.remove(0), passes)
    }
}

/// The passes at these places, each taken out before the next.
fn taken<R: Abort>(
    rt: &R,
    alloc: Global,
    passes: &mut Vec<Pass<Key>>,
    places: &[usize],
) -> Vec<Pass<Key>>
    ensures { length result.items < 4294967295 }
{
    let mut taken = Vec::new(alloc);
    for place in places {
        assert!(rt; *place < passes.len());
        taken.push(passes.remove(*place)).ok().expect(rt, "memory");
    }
    assert!(rt; taken.len() <= 4);
    taken
}

fn close_with(signer: KeySigner, passes: Vec<Pass<Key>>) -> Result<usize, CloseError>
    requires { length passes.items < 4294967295 }
{
    match signer.close(passes) {
        Ok(settled) => Ok(settled.journal.len()),
        Err(refused) => Err(refused.why),
    }
}

/// A begin of a call of the first handle.
fn begin<R: Abort>(rt: &R, alloc: Global, number: u64) -> Event<Key> {
    Event::Begin {
        call: CallId { handle: 0, number },
        head: head(alloc).expect(rt, "memory"),
        expires_in: None,
    }
}

/// How the first signer of a row is closed.
fn closed<R: Wait + Abort>(rt: &R, alloc: Global, row: &Row) -> Result<usize, CloseError> {
    let mut four = Four::new(alloc).expect(rt, "memory");
    for (signer, pass, number) in row.0 {
        four.begin(rt, *signer, *pass, &begin(rt, alloc, *number));
    }
    four.close(rt, alloc, row.1)
}

#[test]
fn signers_are_closed_as_their_passes_say(rt: HostRuntime) {
    for row in &ROWS {
        assert!(rt; closed(&rt, rt.alloc(), row) == row.2);
    }
}

/// Why a book is not closed under a plan of another setup.
fn closed_under_another_plan(alloc: Global) -> Option<CloseError> {
    let book = Book::new(desk_of(alloc, UntilNow { place: 0 })?);
    let plan = desk_of(alloc, UntilNow { place: 1 })?;
    match book.close(plan, Vec::new(alloc)) {
        Ok(_) => None,
        Err(refused) => Some(refused.why),
    }
}

#[test]
fn a_plan_of_another_setup_closes_no_book(rt: HostRuntime) {
    assert!(rt; closed_under_another_plan(rt.alloc()) == Some(CloseError::Setup));
}
