// What a caller needs before a build, for C: the controls to start from, and the sizes of the stores.
ghost use Rattle.std.specs.Prelude.{◌≡◌};
ghost use Rattle.export.specs.Structs.{default_struct, controls_of};
ghost use Rattle.charge.specs.Charge.{sizes_for};

use charge::StoreSizes;
use export::OptionsForC;

#[unsafe(no_mangle)]
pub extern "C" fn multigrid_default_options() -> OptionsForC
    ensures { result ≡ default_struct }
{
    export::default_options()
}

#[unsafe(no_mangle)]
pub extern "C" fn multigrid_charge(
    rows: u64,
    entries: u64,
    options: OptionsForC,
    levels: u64,
) -> StoreSizes
    ensures { result ≡ sizes_for (controls_of options) rows entries levels }
{
    let controls = export::read_options(options);
    charge::store_sizes(rows, entries, controls, levels)
}
