//! Laws of the definitions, which no function computes.
ghost use Rattle.rec_check.specs.Meanings.{MeaningIsOne};
ghost use Rattle.rec_check.specs.Schemas.{OneSchema};
ghost use Rattle.rec_check.specs.Soundness.{NewDescriptor, SameDescriptors};
ghost use Rattle.rec_check.specs.Violations.{OneCheck, OneReport};

/// A text has one schema, or one first faulty field; the same patterns may be built in more ways than one.
pub fn one_schema()
    ensures { OneSchema }
{}

/// Two texts with the same descriptors have the same rules, or a faulty descriptor both.
pub fn same_descriptors()
    ensures { SameDescriptors }
{}

/// One descriptor more that names a new type alone isn't faulty, and asks nothing.
pub fn new_descriptor()
    ensures { NewDescriptor }
{}

/// A text has one report, whichever way its patterns were built.
pub fn one_report()
    ensures { OneReport }
{}

/// A text has one list of violations, or one refusal; the same patterns may be built in more ways than one.
pub fn one_check()
    ensures { OneCheck }
{}

/// A kind has one meaning within a descriptor, and a function finds it.
pub fn one_meaning()
    ensures { MeaningIsOne }
{}
