//! What the threads of a run share under their lock.

ghost use Rattle.std.specs.Prelude.{◌≡◌, ◌≢◌, [], IfOk, IfSome};
ghost use Rattle.pg_runner.specs.Live.{IsBegun, IsGivenNext};

use crate::board::Board;
use crate::given::{Count, Given, Naming};
use crate::live_judging::LiveJudging;
use crate::segments::next_segments;
use pg_event::{Event, Header};
use pg_guest::{Advance, Stop};
use pg_report::Team;
use std::alloc::{AllocError, Global};
use std::marker::Model;

/// A board, and what was given out of it. Turns keep that what was given out begins the record.
#[derive(Drop)]
pub(crate) struct Shared<'a, J: Naming> {
    board: Board<'a>,
    /// None once what was given out is not known: nothing more is given out then.
    given: Option<Given<J>>,
}

impl<'a, J: Naming> Model for Shared<'a, J> {
    ghost use Rattle.std.specs.Prelude.{IfSome};
    ghost use Rattle.pg_runner.specs.Given.{AreGiven, Sharing};

    ghost Value = { Sharing };

    ghost view = { λ s. record { board = s.board; given = s.given } };

    ghost invariant = { λ s. IfSome s.given (λ given. AreGiven s.board given) };
}

impl<'a, J: Naming> Shared<'a, J> {
    /// A board of which nothing was given out.
    pub(crate) fn new(board: Board<'a>, given: Given<J>) -> Shared<'a, J>
        requires board { board.world.taken ≡ 0 }
        requires given { given ≡ [] }
    {
        Shared {
            board,
            given: Some(given),
        }
    }

    /// One turn of processor `p`, if there is one.
    pub(crate) fn turn(&mut self, p: u16) -> Advance
        ensures { result ≢ Advance.Stopped Stop.Finished }
    {
        if p as usize >= self.board.count() {
            return Advance::Ended;
        }
        self.board.turn(p)
    }

    /// The next sealed segments that were not given out, at most so many, for someone who knows
    /// what was given out before, and then knows these too; none where that is not the same here,
    /// or the settings are not. After an error nothing more is given out.
    pub(crate) fn give(
        &mut self,
        alloc: Global,
        count: &Count<J>,
        known: &mut Given<J>,
        header: &Header,
        most: u32,
    ) -> Result<Option<Vec<Event>>, AllocError>
        ensures { IfOk result (λ given. IfSome given
            (λ events. IsGivenNext header.now events.items known.old known.new)) }
    {
        let Some(mut given) = self.given.take() else {
            return Ok(None);
        };
        if !given.agrees(known) {
            return Ok(None);
        }
        if !self.board.header().is_same(header) {
            return Ok(None);
        }
        let events = next_segments(alloc, &mut self.board, most)?;
        if !given.add(count, &events) {
            return Ok(None);
        }
        *known = given.again();
        self.given = Some(given);
        Ok(Some(events))
    }

    /// The board, and the judges of the events that begin its record, unless nothing says that they
    /// judged these.
    pub(crate) fn apart(self, judging: LiveJudging<J>) -> (Board<'a>, Option<Team>)
        ensures { IfSome result.1 (λ team. IsBegun team result.0.world.events) }
    {
        let Shared { board, given } = self;
        match given {
            Some(given) => (board, judging.team_of(&given)),
            None => (board, None),
        }
    }
}
