// The exported functions: the attribute area.
ghost use Rattle.std.specs.Prelude.{◌≡◌, length};
ghost use Rattle.area_format.specs.Area.{area_answer, area_buffer};
ghost use Rattle.area_format.specs.declared.Way.TheVariants.{Strict, Lenient};
ghost use Rattle.outcome.specs.Areas.{area_outcome};

use area_format::Way;
use outcome::areas::AreaOutcome;

// Reads an attribute area by a way, for both calls.
fn read(area: &[u8], own_name: &[u8], way: Way, out: &mut [u16]) -> AreaOutcome
    ensures answer { result ≡ area_outcome (area_answer way area.now own_name.now (length out.old)) }
    ensures buffer { out.new ≡ area_buffer way area.now own_name.now out.old }
{
    area::read_area(area, own_name, way, out).into()
}

// RFC 5448, sections 3.1 and 3.2: the offers and the name of an attribute area. A name that differs from the peer's own is refused.
#[unsafe(no_mangle)]
pub extern "C" fn kv_read_area(area: &[u8], own_name: &[u8], out: &mut [u16]) -> AreaOutcome
    ensures answer { result ≡ area_outcome (area_answer Strict area.now own_name.now (length out.old)) }
    ensures buffer { out.new ≡ area_buffer Strict area.now own_name.now out.old }
{
    read(area, own_name, Way::Strict, out)
}

// The same, by the lenient way: a name that differs is reported.
#[unsafe(no_mangle)]
pub extern "C" fn kv_read_area_lenient(area: &[u8], own_name: &[u8], out: &mut [u16]) -> AreaOutcome
    ensures answer { result ≡ area_outcome (area_answer Lenient area.now own_name.now (length out.old)) }
    ensures buffer { out.new ≡ area_buffer Lenient area.now own_name.now out.old }
{
    read(area, own_name, Way::Lenient, out)
}
