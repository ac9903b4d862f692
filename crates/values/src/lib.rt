// Values, and the one that was resolved last.
#![tactic(auto)]

ghost use Rattle.std.specs.Prelude.{◌≡◌, true, false};
ghost use Rattle.values.specs.declared.Value.TheVariants as val;

use decimals::types::Number;

// A value: the Rust's FluentValue. A text is a part of the store, of the arguments image or of the workspace.
#[derive(Clone, Copy)]
pub enum Value {
    Store(usize, usize),
    Args(usize, usize),
    Work(usize, usize),
    Number(Number),
    Nothing,
    Wrong,
}

// What was resolved last: a value, whether there was a function to call, and where a call's positional arguments end.
#[derive(Clone, Copy)]
pub struct Resolved {
    pub value: Value,
    pub found: bool,
    pub end: usize,
}

impl Resolved {
    // An error, before anything is resolved.
    pub fn new() -> Resolved
        ensures { (result.value ≡ val.Wrong) × (result.found ≡ true) × (result.end ≡ 0) }
    {
        Resolved {
            value: Value::Wrong,
            found: true,
            end: 0,
        }
    }

    // The value was resolved last.
    pub fn hold(&mut self, v: Value)
        ensures { (self.new.value ≡ v) × (self.new.found ≡ true) × (self.new.end ≡ self.old.end) }
    {
        self.value = v;
        self.found = true;
    }

    // The call's id is no function's.
    pub fn hold_missing(&mut self)
        ensures { (self.new.value ≡ val.Wrong) × (self.new.found ≡ false) × (self.new.end ≡ self.old.end) }
    {
        self.value = Value::Wrong;
        self.found = false;
    }
}
