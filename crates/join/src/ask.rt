// Two plans side by side answer the seven questions of a plan.
ghost use Rattle.std.specs.Prelude.{◌≡◌, length, slice_index};
ghost use Rattle.join.specs.Joining.{step_pairs};
ghost use Rattle.join.specs.Meaning.{joined_meaning};
ghost use Rattle.join.specs.Parts.{pair_of};
ghost use Rattle.join.specs.Sides.{joined_lawful};

use crate::Joined;
use plan::Plan;

impl<A: Plan, B: Plan> Joined<A, B> {
    // The state of the first plan and the state of the second that this state stands for;
    // none where there is no such state, or where the plans are past the limits.
    fn pair(&self, state: usize) -> Option<(usize, usize)>
        ensures { result ≡ pair_of (A.meaning self.now.first) (B.meaning self.now.second) state }
    {
        let inner = self.second.states();
        if self.fits() && state < self.first.states() * inner {
            Some((state / inner, state % inner))
        } else {
            None
        }
    }

    // How many steps lead out of state x of the first plan and y of the second, taken together.
    fn pair_step_count(&self, x: usize, y: usize) -> usize
        ensures { result ≡ length (step_pairs (B.meaning self.now.second).states ((A.meaning self.now.first).steps x) ((B.meaning self.now.second).steps y)) }
    {
        self.first.step_count(x) * self.second.step_count(y)
    }

    // Where step i of those leads: each step of the first plan with each of the second, the first's order
    // outermost; 0 where there is no such step.
    fn pair_step(&self, x: usize, y: usize, i: usize) -> usize
        ensures { result ≡ slice_index (step_pairs (B.meaning self.now.second).states ((A.meaning self.now.first).steps x) ((B.meaning self.now.second).steps y)) i }
    {
        if i >= self.pair_step_count(x, y) {
            return 0;
        }
        let inner = self.second.step_count(y);
        self.first.step(x, i / inner) * self.second.states() + self.second.step(y, i % inner)
    }
}

// Past the limits the answers are those of one marked state without steps or channels.
impl<A: Plan, B: Plan> Plan for Joined<A, B> {
    ghost meaning = { joined_meaning A.meaning B.meaning };

    ghost lawful = { λ x. joined_lawful _ _ (A.lawful x.first) (B.lawful x.second) };

    fn states(&self) -> usize {
        if self.fits() {
            self.first.states() * self.second.states()
        } else {
            1
        }
    }

    fn start(&self) -> usize {
        if self.fits() {
            self.first.start() * self.second.states() + self.second.start()
        } else {
            0
        }
    }

    fn channels(&self) -> usize {
        if self.fits() {
            self.first.channels() + self.second.channels()
        } else {
            0
        }
    }

    fn marked(&self, state: usize) -> bool {
        match self.pair(state) {
            Some((x, y)) => self.first.marked(x) || self.second.marked(y),
            None => state == 0 && !self.fits(),
        }
    }

    fn code(&self, state: usize, channel: usize) -> u32 {
        let Some((x, y)) = self.pair(state) else {
            return 0;
        };
        let outer = self.first.channels();
        if channel < outer {
            self.first.code(x, channel)
        } else {
            self.second.code(y, channel - outer)
        }
    }

    fn step_count(&self, state: usize) -> usize {
        self.pair(state)
            .map_or(0, |(x, y)| self.pair_step_count(x, y))
    }

    fn step(&self, state: usize, i: usize) -> usize {
        self.pair(state).map_or(0, |(x, y)| self.pair_step(x, y, i))
    }
}
