//! A whole run, which shows that the definitions can be met. The function's contract is the law.
ghost use Rattle.nmgc_collector_laws.specs.Samples.{ObjectIsLawful};

use nmgc_alloc::laws;

/// Proves that the report of a sample script that makes one object is lawful. The run has one round and promotes the object.
pub fn a_run_of_one_object_is_lawful()
    ensures { ObjectIsLawful }
{
    laws::new_segments_are_all_free();
}
