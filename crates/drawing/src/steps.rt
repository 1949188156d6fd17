// The steps of a drawing: all targets in one row, and for each state where its own begin and how many they are.
ghost use Rattle.std.specs.Prelude.{◌≡◌, ◌+◌, ◌<◌, ◌≤◌, length, replicate, slice_index, slice_set};
ghost use Rattle.drawing.specs.Stored.{no_span, span_of, steps_of, extended, SpansFit};

use plan::MOST_STATES;

// A drawing has at most this many steps.
pub(crate) const MOST_STEPS: usize = 1024;

#[derive(Clone, Copy)]
pub struct Span {
    pub first: u16,
    pub count: u16,
}

impl Span {
    // No steps.
    const NONE: Span = Span { first: 0, count: 0 };
}

// Arrays of fixed length, for the most that a drawing has, since by a rule of the project nothing allocates here.
#[derive(Drop)]
pub struct StepTable {
    pub spans: [Span; MOST_STATES],
    pub targets: [u8; MOST_STEPS],
}

impl StepTable {
    // No state has a step.
    pub(crate) fn empty() -> StepTable
        ensures { result ≡ record { spans = replicate 128 no_span; targets = replicate 1024 0 } }
    {
        StepTable {
            spans: [Span::NONE; MOST_STATES],
            targets: [0; MOST_STEPS],
        }
    }

    // One step more of a state: its target goes to this place, right behind the state's other targets, if it has any.
    pub(crate) fn add(&mut self, place: usize, from: usize, to: u8)
        requires in_table { place < 1024 }
        requires is_state { from < 128 }
        requires behind { (span_of self.old from).first + (span_of self.old from).count ≤ place }
        ensures spans { self.new.spans ≡ slice_set self.old.spans from (extended (span_of self.old from) place) }
        ensures targets { self.new.targets ≡ slice_set self.old.targets place to }
    {
        let mut span = self.spans[from];
        if span.count == 0 {
            span.first = place as u16;
        }
        span.count += 1;
        self.spans[from] = span;
        self.targets[place] = to;
    }

    fn span(&self, state: usize) -> Span
        ensures { result ≡ span_of self.now state }
    {
        self.spans.get(state).copied().unwrap_or(Span::NONE)
    }

    // How many steps this state has.
    pub(crate) fn count(&self, state: usize) -> usize
        requires { SpansFit self.now }
        ensures { result ≡ length (steps_of self.now state) }
    {
        usize::from(self.span(state).count)
    }

    // Where step i of this state leads, 0 where there is no such step.
    pub(crate) fn step(&self, state: usize, i: usize) -> usize
        requires { SpansFit self.now }
        ensures { result ≡ slice_index (steps_of self.now state) i }
    {
        let span = self.span(state);
        if i < usize::from(span.count) {
            usize::from(self.targets[usize::from(span.first) + i])
        } else {
            0
        }
    }
}
