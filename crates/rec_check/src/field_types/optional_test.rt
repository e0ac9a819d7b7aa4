//! The type of some fields, where they have one.

use crate::field_types::field_type::FieldType;
use crate::field_types::lazy_test::LazyTest;
use rec_text::Fault;
use std::alloc::Global;

/// The type of some fields, ready to be tried. Where there is none, any value fits.
#[derive(Drop)]
pub(crate) struct OptionalTest<'r> {
    pub lazy: Option<LazyTest<'r>>,
}

impl<'r> OptionalTest<'r> {
    ghost use Rattle.std.specs.Prelude.{◌≡◌, Some, option_map, unwrap_or, IfOk, IsOkUnless};
    ghost use Rattle.rec_check.specs.Automatic.{may_count};
    ghost use Rattle.rec_check.specs.proving.Fitting.{type_tested};
    ghost use Rattle.rec_check.specs.Stored.{type_stored};
    ghost use Rattle.rec_check.specs.Types.{fits, unchecked};

    pub(crate) fn of(value_type: Option<&'r FieldType>) -> OptionalTest<'r>
        ensures { type_tested result
            ≡ unwrap_or (option_map (λ value_type. type_stored value_type.now) value_type.entry) unchecked }
    {
        match value_type {
            Some(value_type) => OptionalTest {
                lazy: Some(LazyTest::of(value_type)),
            },
            None => OptionalTest { lazy: None },
        }
    }

    /// Whether a value fits the type.
    pub(crate) fn fits(&mut self, alloc: Global, value: &[u8]) -> Result<bool, Fault>
        ensures fits { IfOk result (λ answer. answer ≡ fits (type_tested self.old) value.now) }
        ensures same { type_tested self.new ≡ type_tested self.old }
        ensures refusals { IsOkUnless result Fault.OutOfMemory }
    {
        match &mut self.lazy {
            Some(lazy) => lazy.fits(alloc, value),
            None => Ok(true),
        }
    }

    /// Whether values of the type may be counted.
    pub(crate) fn may_count(&self) -> bool
        ensures { result ≡ may_count (Some (type_tested self.now)) }
    {
        match &self.lazy {
            Some(lazy) => lazy.may_count(),
            None => false,
        }
    }
}
