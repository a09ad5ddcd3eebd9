// The place of an offset.
ghost use Rattle.std.specs.Prelude.{◌≡◌};
ghost use Rattle.meaning.specs.Places.{location};

use meaning::SourceLocation;

// The place of an offset among any starts of lines.
#[unsafe(no_mangle)]
pub extern "C" fn pdl_location(offset: usize, starts: &[usize]) -> SourceLocation
    ensures { result ≡ location offset starts.now }
{
    SourceLocation::new(offset, starts)
}
