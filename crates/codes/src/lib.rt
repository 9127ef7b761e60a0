// An answer as two numbers.
#![tactic(auto)]

ghost use Rattle.std.specs.Prelude.{◌≡◌, ℕ, List};
ghost use Rattle.refusal.specs.Told.{told_by};
ghost use Rattle.complex_entity.specs.Told.{told_order};
ghost use Rattle.scope.specs.Told.{told_compared};
ghost use Rattle.codes.specs.MeaningCode.{read, flag, sign, sign_or_none};
ghost use Rattle.codes.specs.Told.{typed};
ghost use Rattle.codes.specs.MirrorCode.{code_of};

use instantiables::Instantiables;
use refusal::Refusal;
use std::cmp::Ordering;
use type_ref::TypeRef;

// What C gets of an answer's value: one number.
pub trait Value: Copy {
    ghost told: { Self → ℕ };

    fn value(self) -> u64
        ensures { result ≡ told self };
}

// ---- numbers

impl Value for usize {
    ghost told = { λ number. number };

    fn value(self) -> u64 {
        self as u64
    }
}

impl Value for u16 {
    ghost told = { λ number. number };

    fn value(self) -> u64 {
        u64::from(self)
    }
}

// How many parts a list has.
impl Value for Instantiables {
    ghost told = { λ list. list.count };

    fn value(self) -> u64 {
        self.count.value()
    }
}

// ---- what is yes or no, or nothing but yes

impl Value for bool {
    ghost told = { flag };

    fn value(self) -> u64 {
        u64::from(self)
    }
}

impl Value for () {
    ghost told = { λ yes. 0 };

    fn value(self) -> u64 {
        0
    }
}

// ---- comparisons

impl Value for Ordering {
    ghost told = { λ order. sign (told_order order) };

    fn value(self) -> u64 {
        match self {
            Ordering::Less => 0,
            Ordering::Equal => 1,
            Ordering::Greater => 2,
        }
    }
}

impl Value for Option<Ordering> {
    ghost told = { λ order. sign_or_none (told_compared order) };

    #[tactic(auto, unfolding(scope::specs::Told::told_compared))]
    fn value(self) -> u64 {
        match self {
            Some(order) => order.value(),
            None => 3,
        }
    }
}

// A refusal's number and place; or 0, and the value.
#[derive(Clone, Copy, Debug, PartialEq, Eq)]
pub struct Code {
    pub number: u8,
    pub value: u64,
}

impl Code {
    pub fn of<T: Value>(answer: Result<T, Refusal>) -> Self
        ensures { result ≡ code_of (told_by T.told answer) }
    {
        match answer {
            Ok(value) => Self {
                number: 0,
                value: value.value(),
            },
            Err(why) => Self {
                number: why.reason.into(),
                value: why.place as u64,
            },
        }
    }
}

// For C: writes the value, or the refusal's place, where the caller points; answers 0, or the refusal's number.
#[tactic(auto, using(crate::proofs::Reading::code_read))]
pub fn hand_out<T: Value>(answer: Result<T, Refusal>, value: &mut u64) -> u8
    ensures { told_by T.told answer ≡ read result value.new }
{
    let code = Code::of(answer);
    *value = code.value;
    code.number
}

// ---- types

// A type's kind, which is all of it that C gets. A function of its own, since TypeRef is no Result: document 01's form.
#[tactic(auto, unfolding(crate::specs::Told::typed, type_ref::specs::Told::told_type_ref))]
pub fn kind_of(answer: TypeRef) -> Result<u16, Refusal>
    ensures { (query : List ℕ) → told_by (λ kind. kind) result ≡ typed query answer }
{
    match answer {
        TypeRef::Entity(x) => Ok(u16::from(x.is_supertype)),
        TypeRef::Named(x) => Ok(4 + 2 * u16::from(x.is_simple) + u16::from(x.is_enumerate)),
        TypeRef::Refused(why) => Err(why),
    }
}
