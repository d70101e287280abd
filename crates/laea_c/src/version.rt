// The version, as the header has it.
ghost use Rattle.std.specs.Prelude.{◌≡◌};
ghost use Rattle.laea_c.specs.Calls.{version};

// 10,000 times the major number, 100 times the minor one, and the patch: 0.8.0.
const VERSION: u32 = 800;

// The archive's version.
#[unsafe(no_mangle)]
pub extern "C" fn laea1_version() -> u32
    ensures { result ≡ version }
{
    VERSION
}
