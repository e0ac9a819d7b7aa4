//! A type whose test is made when the first value is tried.
ghost use Rattle.rec_check.specs.proving.Testing.{ServesOnceMade};

use crate::field_types::field_type::FieldType;
use crate::field_types::test::Test;
use rec_text::Fault;
use std::alloc::Global;

/// A type, and how values are tried for it.
#[derive(Drop)]
pub(crate) struct LazyTest<'r> {
    pub value_type: &'r FieldType,
    /// It is made when the first value is tried.
    pub test: Option<Test<'r>>,
    ghost serves: { ServesOnceMade test value_type.now },
}

impl<'r> LazyTest<'r> {
    ghost use Rattle.std.specs.Prelude.{◌≡◌, Some, IfOk, IsOkUnless};
    ghost use Rattle.rec_check.specs.Automatic.{may_count};
    ghost use Rattle.rec_check.specs.Stored.{type_stored};
    ghost use Rattle.rec_check.specs.Types.{fits};

    pub(crate) fn of(value_type: &'r FieldType) -> LazyTest<'r>
        ensures { type_stored result.value_type.now ≡ type_stored value_type.now }
    {
        LazyTest {
            value_type,
            test: None,
        }
    }

    /// Whether a value fits the type.
    pub(crate) fn fits(&mut self, alloc: Global, value: &[u8]) -> Result<bool, Fault>
        ensures fits { IfOk result (λ answer. answer ≡ fits (type_stored self.old.value_type.now) value.now) }
        ensures same { type_stored self.new.value_type.now ≡ type_stored self.old.value_type.now }
        ensures refusals { IsOkUnless result Fault.OutOfMemory }
    {
        if let Some(test) = &mut self.test {
            return Ok(test.passes(self.value_type, value));
        }
        let mut test = Test::of(alloc, self.value_type)?;
        let answer = test.passes(self.value_type, value);
        self.test = Some(test);
        Ok(answer)
    }

    /// Whether values of the type may be counted.
    pub(crate) fn may_count(&self) -> bool
        ensures { result ≡ may_count (Some (type_stored self.now.value_type.now)) }
    {
        matches!(self.value_type, FieldType::Integer | FieldType::Range(_, _))
    }
}
