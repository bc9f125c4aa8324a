// Checks 1 and 10 of a state: the lines first, with the figures and the lent lengths, then the queues, the register and the checkpoints.
// And what calls share: a refusal.
ghost use Rattle.std.specs.Prelude.{◌≡◌, ◌&&◌, ◌*◌};
ghost use Rattle.rules.specs.RefusalNumbers.{refusal_number, numbered};
ghost use Rattle.rules.specs.WellFormed.{request_absent, request_inside, request_wanted, well_formed};
ghost use Rattle.records.specs.Records.{tabled};
ghost use Rattle.access.specs.AccessChecks.{sized};
ghost use Rattle.model.specs.State.{queues_of, hierarchy_of, checked_state, Shaped};

use crate::{Answer, State, Step};
use rules::{LINE_BYTES, Refusal, Request};

impl State {
    // A requested line is absent, lies in memory, and is wanted.
    fn is_request_good(self) -> bool
        requires { Shaped self (self.figures.sets * self.figures.ways * 16) }
        ensures { result ≡ (request_absent self.request (tabled self.figures self.tags) && (request_inside self.request (sized self.size) && request_wanted self.request (queues_of self) self.figures.policy)) }
    {
        let Request::Line(line) = self.request else {
            return true;
        };
        !records::is_present(self.tags, self.figures, line)
            && u64::from(LINE_BYTES) * u64::from(line) < u64::from(self.size)
            && queue_checks::request_wanted(
                self.figures.policy,
                self.request,
                self.stores,
                self.loads,
                self.committed,
            )
    }

    // Checks 1 and 10.
    pub(crate) fn check_state(self, cache: &[u8], memory: &[u8]) -> Result<(), Refusal>
        ensures { numbered result ≡ checked_state (queues_of self) (hierarchy_of self cache.now memory.now) }
    {
        line_checks::check_lines(self.tags, self.figures, self.size, cache, memory)?;
        if !queue_checks::queues_good(
            self.stores,
            self.loads,
            self.last,
            self.committed,
            self.size,
        ) {
            return Err(Refusal::NotWellFormed);
        }
        if !self.is_request_good() {
            return Err(Refusal::NotWellFormed);
        }
        if !checkpoints::are_formed(self.checkpoints, self.committed, self.last) {
            return Err(Refusal::NotWellFormed);
        }
        Ok(())
    }

    // Whether checks 1 and 10 pass: the state is well formed, with this cache and this memory.
    pub fn is_formed(self, cache: &[u8], memory: &[u8]) -> bool
        ensures { result ≡ well_formed (queues_of self) (hierarchy_of self cache.now memory.now) }
    {
        self.check_state(cache, memory).is_ok()
    }

    // A refusal: its number alone.
    pub(crate) fn refused(self, why: Refusal) -> Step
        ensures { result ≡ record { answer = Answer.Refused (refusal_number why); next = self } }
    {
        Step {
            answer: Answer::Refused(why.number()),
            next: self,
        }
    }
}
