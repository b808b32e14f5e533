//! What a value meets on its way out of a function, once its last call has given it.
ghost use Rattle.std.specs.Prelude.{◌≡◌, ℕ, Option};
ghost use Rattle.bs_words.specs.declared.values.Value.{Value};
ghost use Rattle.cmm_meaning.specs.State as state;
ghost use Rattle.cmm_meaning.specs.Evaluation as evaluation;
ghost use Rattle.cmm_meaning.specs.Evaluation.{Gives, and_then, as_written, of_type};
ghost use Rattle.eval_frames.specs.Filled.{standing};
ghost use Rattle.eval_frames.specs.Meets.{verdict_after, verdict_on, meets};

use crate::frame::Now;
use crate::given::not_proper;
use bs_words::{Kind, Ret, Ty, Value};
use cmm_values::{fits, misfit};

/// What tests make of a value, or of none.
#[derive(Clone, Copy)]
pub enum Verdict {
    /// It passes them.
    Kept,
    /// It is dropped, where there is one.
    Dropped,
    /// One of them makes the run improper.
    Improper(Kind),
}

/// Tests that a value meets one after the other, however many they are: what they make of it depends on
/// whether there is a value, and on whether it fits int and val.
/// A table after a table is a table, so memory does not grow with tail calls. A list would not do: where a
/// value is dropped between two tests of one type, the second reports what the first does not.
#[derive(Clone, Copy)]
pub struct Tests {
    /// Of no value.
    pub absent: Verdict,
    /// Of a value that fits neither.
    pub neither: Verdict,
    /// Of one that fits int alone.
    pub int: Verdict,
    /// Of one that fits val alone.
    pub val: Verdict,
    /// Of one that fits both.
    pub both: Verdict,
}

impl Tests {
    /// No test.
    pub fn none() -> Tests
        ensures { (end : ℕ) → (v : Option Value) → (h : state.Here) → (w : state.World) →
            meets end result v h w ≡ Gives v h w }
    {
        Tests::all(Verdict::Kept)
    }

    /// A value comes where a call is written with a type, and is dropped where it is not.
    pub fn written(written: Ret) -> Tests
        ensures { (end : ℕ) → (v : Option Value) → (h : state.Here) → (w : state.World) →
            meets end result v h w ≡ as_written written v h w }
    {
        match written {
            Ret::Unit => Tests::all(Verdict::Dropped),
            Ret::Comp(_) => Tests {
                absent: Verdict::Improper(Kind::BadCall),
                ..Tests::all(Verdict::Kept)
            },
        }
    }

    /// The test of what a node of this type gives.
    pub fn of_type(ty: Ty) -> Tests
        ensures { (end : ℕ) → (v : Option Value) → (h : state.Here) → (w : state.World) →
            meets end result v h w ≡ of_type end ty v h w }
    {
        let misfit = Verdict::Improper(misfit(ty));
        let absent = Verdict::Improper(Kind::BadValue);
        match ty {
            Ty::NoValue => Tests::all(Verdict::Dropped),
            Ty::Never => Tests {
                absent,
                ..Tests::all(misfit)
            },
            Ty::Int => Tests {
                absent,
                neither: misfit,
                int: Verdict::Kept,
                val: misfit,
                both: Verdict::Kept,
            },
            Ty::Val => Tests {
                absent,
                neither: misfit,
                int: misfit,
                val: Verdict::Kept,
                both: Verdict::Kept,
            },
            Ty::Addr => Tests {
                absent,
                ..Tests::all(Verdict::Kept)
            },
        }
    }

    fn all(verdict: Verdict) -> Tests
        ensures { result ≡ record {
          absent = verdict;
          neither = verdict;
          int = verdict;
          val = verdict;
          both = verdict;
        } }
    {
        Tests {
            absent: verdict,
            neither: verdict,
            int: verdict,
            val: verdict,
            both: verdict,
        }
    }

    /// These tests, and then the others.
    pub fn then(self, others: Tests) -> Tests
        ensures { (end : ℕ) → (v : Option Value) → (h : state.Here) → (w : state.World) →
            meets end result v h w ≡ and_then (meets end self v h w) (λ v h w.
            meets end others v h w) }
    {
        Tests {
            absent: self.absent.then(others.absent, others.absent),
            neither: self.neither.then(others.neither, others.absent),
            int: self.int.then(others.int, others.absent),
            val: self.val.then(others.val, others.absent),
            both: self.both.then(others.both, others.absent),
        }
    }

    /// What they make of a value, or of none.
    pub fn meet<'a>(self, end: u64, value: Option<Value>) -> Now<'a>
        ensures { (s : evaluation.Surroundings) → (h : state.Here) → (w : state.World) →
            standing s result h w ≡ meets end self value h w }
    {
        match self.verdict_on(end, value) {
            Verdict::Kept => Now::Gives(value),
            Verdict::Dropped => Now::Gives(None),
            Verdict::Improper(kind) => not_proper(kind),
        }
    }

    fn verdict_on(self, end: u64, value: Option<Value>) -> Verdict
        ensures { result ≡ verdict_on self end value }
    {
        let Some(value) = value else {
            return self.absent;
        };
        if fits(end, Ty::Int, value) {
            if fits(end, Ty::Val, value) {
                self.both
            } else {
                self.int
            }
        } else if fits(end, Ty::Val, value) {
            self.val
        } else {
            self.neither
        }
    }
}

impl Verdict {
    /// This verdict, and then that of other tests on the value, or on none where it is dropped.
    fn then(self, of_value: Verdict, of_none: Verdict) -> Verdict
        ensures { result ≡ verdict_after self of_value of_none }
    {
        match self {
            Verdict::Kept => of_value,
            Verdict::Dropped => match of_none {
                Verdict::Kept => Verdict::Dropped,
                verdict => verdict,
            },
            Verdict::Improper(kind) => Verdict::Improper(kind),
        }
    }
}
