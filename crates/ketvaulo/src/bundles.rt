// The exported functions: bundles of Key attributes.
ghost use Rattle.std.specs.Prelude.{◌≡◌, length};
ghost use Rattle.outcome.specs.Outcomes.{outcome_of};
ghost use Rattle.bundle_rules.specs.Bundle as Bundle;
ghost use Rattle.compare_rules.specs.Compare.{compare_buffer};
ghost use Rattle.ketvaulo.specs.Calls.{compared};

use outcome::Outcome;
use outcome::comparisons::Comparison;

// Document 02, request 9: the file of Key attributes that are packed end to end.
#[unsafe(no_mangle)]
pub extern "C" fn kv_write_bundle(attributes: &[u8], out: &mut [u8]) -> Outcome
    ensures answer { result ≡ outcome_of (Bundle.write_answer attributes.now (length out.old)) }
    ensures buffer { out.new ≡ Bundle.write_buffer attributes.now out.old }
{
    bundle_writer::write(attributes, out).into()
}

// Document 02, request 9: the Key attributes of a file, packed end to end.
#[unsafe(no_mangle)]
pub extern "C" fn kv_read_bundle(file: &[u8], out: &mut [u8]) -> Outcome
    ensures answer { result ≡ outcome_of (Bundle.read_answer file.now (length out.old)) }
    ensures buffer { out.new ≡ Bundle.read_buffer file.now out.old }
{
    bundle_reader::read(file, out).into()
}

// Document 02, request 10: what changed between two bundles.
#[unsafe(no_mangle)]
pub extern "C" fn kv_compare_bundles(first: &[u8], second: &[u8], out: &mut [u8]) -> Comparison
    ensures answer { result ≡ compared first.now second.now (length out.old) }
    ensures buffer { out.new ≡ compare_buffer first.now second.now out.old }
{
    bundle_compare::compare_bundles(first, second, out).into()
}
