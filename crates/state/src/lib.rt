// How far a formatting has come, which is lent down the whole of it, and each single step of it; and the Rust's Scope, by value.
#![tactic(auto)]

ghost use Rattle.std.specs.Prelude.{◌≡◌};
ghost use Rattle.state.specs.Progress.{scope_of};
ghost use Rattle.state.specs.Setters.{new_s, up_to, max_unfound};

use refusals::Refusal;

// How far a formatting has come.
#[derive(Clone, Copy)]
pub struct Progress {
    // how much text; how long a list, of how many errors
    pub text_at: usize,
    pub list_at: usize,
    pub errors: usize,
    // the workspace's front, its back and the highest use
    pub front: usize,
    pub back: usize,
    pub high: usize,
    // how many patterns are on the trail; the placeables begun; the lookups unfound
    pub depth: usize,
    pub begun: usize,
    pub unfound: usize,
    // is a text made aside; the dirty mark
    pub aside: bool,
    pub dirty: bool,
    // a term's arguments: are there any, where they stand in the store, how many, and where their texts end in the workspace
    pub local: bool,
    pub local_at: usize,
    pub local_count: usize,
    pub local_base: usize,
    // the number of the refusal, or 0; one that no refusal has can be lent too
    pub refused: usize,
}

// The Rust's Scope: the placeables begun, the dirty mark, and a term's arguments.
#[derive(Clone, Copy)]
pub struct Scope {
    pub begun: usize,
    pub dirty: bool,
    pub local: bool,
    pub local_at: usize,
    pub local_count: usize,
    pub local_base: usize,
}

// Where a reference's Id stands, its attribute, if it has one, and the position past them.
#[derive(Clone, Copy)]
pub struct Referring {
    pub from: usize,
    pub to: usize,
    pub attribute: Option<(usize, usize)>,
    pub end: usize,
}

// One more of a count, which stops at its greatest value.
pub fn one_more(n: usize) -> usize
    ensures { result ≡ up_to max_unfound n }
{
    n.saturating_add(1)
}

impl Progress {
    ghost use Rattle.std.specs.Prelude.{true, not, eqb, set};
    ghost use Rattle.state.specs.Progress.{refused_of, scope_of, scoped_s};
    ghost use Rattle.state.specs.Setters.{depth_s, begun_s, may_begin, begin_s, back_s, aside_s, kept_s, locals_s, clear_s, counted_s, missing_s, new_s, refuse_s, refused_s, text_s, list_s, front_s, held_s};

    // Nothing is written, listed, begun or travelled, and the workspace has `room` bytes.
    pub fn new(room: usize) -> Progress
        ensures { result ≡ new_s room }
    {
        Progress {
            text_at: 0,
            list_at: 5,
            errors: 0,
            front: 0,
            back: room,
            high: 0,
            depth: 0,
            begun: 0,
            unfound: 0,
            aside: false,
            dirty: false,
            local: false,
            local_at: 0,
            local_count: 0,
            local_base: 0,
            refused: 0,
        }
    }

    // Refused with a number.
    pub fn refuse_with(&mut self, why: usize)
        ensures { self.new ≡ refused_s why self.old }
    {
        self.refused = why;
    }

    // Refused.
    pub fn refuse(&mut self, why: Refusal)
        ensures { self.new ≡ refuse_s why self.old }
    {
        self.refuse_with(usize::from(why.number()));
    }

    // Was the formatting refused?
    pub fn is_refused(&self) -> bool
        ensures { result ≡ not (eqb (refused_of self.now) 0) }
    {
        self.refused != 0
    }

    // So many patterns on the trail.
    pub fn set_depth(&mut self, depth: usize)
        ensures { self.new ≡ depth_s depth self.old }
    {
        self.depth = depth;
    }

    // The workspace's back.
    pub fn set_back(&mut self, back: usize)
        ensures { self.new ≡ back_s back self.old }
    {
        self.back = back;
    }

    // From here on a text is made aside.
    pub fn set_aside(&mut self)
        ensures { self.new ≡ aside_s true self.old }
    {
        self.aside = true;
    }

    // So much text.
    pub fn set_text(&mut self, n: usize)
        ensures { self.new ≡ text_s n self.old }
    {
        self.text_at = n;
    }

    // So long a list of so many errors.
    pub fn set_list(&mut self, n: usize, errors: usize)
        ensures { self.new ≡ list_s n errors self.old }
    {
        self.list_at = n;
        self.errors = errors;
    }

    // The workspace's front, and the highest use.
    pub fn set_front(&mut self, front: usize, high: usize)
        ensures { self.new ≡ front_s front high self.old }
    {
        self.front = front;
        self.high = high;
    }

    // So much is kept at the workspace's back, and the highest use.
    pub fn set_held(&mut self, back: usize, high: usize)
        ensures { self.new ≡ held_s back high self.old }
    {
        self.back = back;
        self.high = high;
    }

    // A text of its own is made: its bytes go from the front, which goes back to `start`, to the back.
    pub fn set_kept(&mut self, start: usize, to: usize, aside: bool)
        ensures { self.new ≡ kept_s start to aside self.old }
    {
        self.front = start;
        self.back = to;
        self.aside = aside;
    }

    // A term's named arguments, from here on: where they stand in the store, how many, and where their texts end in the workspace.
    pub fn set_locals(&mut self, at: usize, count: usize, base: usize)
        ensures { self.new ≡ locals_s at count base self.old }
    {
        self.local = true;
        self.local_at = at;
        self.local_count = count;
        self.local_base = base;
    }

    // The Rust clears a term's arguments after it.
    pub fn clear_locals(&mut self)
        ensures { self.new ≡ clear_s self.old }
    {
        self.local = false;
    }

    // A lookup unfound more, as far as the count goes.
    pub fn count_unfound(&mut self)
        ensures { self.new ≡ counted_s self.old }
    {
        self.unfound = one_more(self.unfound);
    }

    // A call of an id that has no entry: the lookup is counted, the call's arguments are freed, and no error is counted.
    pub fn missing_function(&mut self, old: usize)
        ensures { self.new ≡ missing_s old self.old }
    {
        self.count_unfound();
        self.back = old;
    }

    // Fewer than 100 placeables were begun.
    pub fn may_begin(&self) -> bool
        ensures { result ≡ may_begin self.now }
    {
        self.begun < 100
    }

    // A placeable more is begun, where fewer than 100 were; else nothing changes.
    pub fn begin(&mut self)
        ensures { self.new ≡ begin_s self.old }
    {
        if self.may_begin() {
            self.begun += 1;
        }
    }

    // The 101st placeable is begun: from here on nothing more is written.
    pub fn begin_last(&mut self)
        ensures { self.new ≡ begun_s 101 true self.old }
    {
        self.begun = 101;
        self.dirty = true;
    }

    // `Scope::maybe_track`, where no pattern is travelled yet.
    pub fn enter(&mut self, trail: &mut [usize; 102], q: usize)
        ensures { (self.new ≡ depth_s 1 self.old) × (trail.new ≡ set trail.old 0 q) }
    {
        trail[0] = q;
        self.set_depth(1);
    }

    // The parts of a scope are put among the others.
    pub fn set_scope(&mut self, scope: Scope)
        ensures { self.new ≡ scoped_s scope self.old }
    {
        self.begun = scope.begun;
        self.dirty = scope.dirty;
        self.local = scope.local;
        self.local_at = scope.local_at;
        self.local_count = scope.local_count;
        self.local_base = scope.local_base;
    }

    // The scope in it.
    pub fn scope(&self) -> Scope
        ensures { result ≡ scope_of self.now }
    {
        Scope {
            begun: self.begun,
            dirty: self.dirty,
            local: self.local,
            local_at: self.local_at,
            local_count: self.local_count,
            local_base: self.local_base,
        }
    }
}

impl Scope {
    ghost use Rattle.state.specs.Progress.{scope_of};
    ghost use Rattle.state.specs.Setters.{new_s};

    // `Scope::new`: nothing is begun, and there are no term's arguments.
    pub fn new() -> Scope
        ensures { result ≡ scope_of (new_s 0) }
    {
        Scope {
            begun: 0,
            dirty: false,
            local: false,
            local_at: 0,
            local_count: 0,
            local_base: 0,
        }
    }
}
