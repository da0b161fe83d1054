// States by value, and calls.
ghost use Rattle.std.specs.Prelude.{◌≡◌};
ghost use Rattle.steps.specs.Run.{Goal};
ghost use Rattle.steps.specs.State.{holds, removed};
ghost use Rattle.steps.specs.Inner.{inserted};

// A set of at most 64 fluents: fluent k holds exactly if bit k is set.
#[derive(Clone, Copy, Debug, Default, PartialEq, Eq)]
pub struct State(pub u64);

impl From<u64> for State {
    ghost from_gives = { λ word state. state.0 ≡ word };

    fn from(word: u64) -> State {
        State::of(word)
    }
}

impl From<State> for u64 {
    ghost from_gives = { λ state word. word ≡ state.0 };

    fn from(state: State) -> u64 {
        state.0
    }
}

impl State {
    // The state in which nothing holds.
    pub const NOTHING: State = State(0);

    // The same as a function: a contract can speak of what a function gives, not of a constant.
    pub fn nothing() -> State
        ensures { result.0 ≡ 0 }
    {
        State::NOTHING
    }

    // The state that a 64-bit word stands for.
    pub fn of(word: u64) -> State
        ensures { result.0 ≡ word }
    {
        State(word)
    }

    // Whether fluent k holds; none from 64 on does.
    pub fn holds(self, k: u64) -> bool
        ensures { result ≡ holds self.0 k }
    {
        k < 64 && (self.0 >> k) % 2 == 1
    }

    // The state with fluent k added; from 64 on there is no fluent to add, and the state is handed back as it is.
    pub fn insert(self, k: u64) -> State
        ensures { result.0 ≡ inserted self.0 k }
    {
        if k < 64 && !self.holds(k) {
            State(self.0 + (1 << k))
        } else {
            self
        }
    }

    // The state with fluent k removed.
    pub fn delete(self, k: u64) -> State
        ensures { result.0 ≡ removed self.0 k }
    {
        if self.holds(k) {
            State(self.0 - (1 << k))
        } else {
            self
        }
    }
}

// An action and the state in which it is called.
#[derive(Clone, Copy, Debug, PartialEq, Eq)]
pub struct Call {
    pub action: u64,
    pub state: State,
}

impl Call {
    // The number under which the goal stands in the tables.
    pub const GOAL: u64 = 64;

    // The goal's call in the state that a 64-bit word stands for.
    pub fn goal(word: u64) -> Call
        ensures { (result.action ≡ Goal) × (result.state.0 ≡ word) }
    {
        Call {
            action: Call::GOAL,
            state: State::of(word),
        }
    }
}
