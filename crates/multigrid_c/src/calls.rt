// The five calls for C.
ghost use Rattle.std.specs.Prelude.{◌≡◌, true, false, [], length};
ghost use Rattle.build.specs.Steps.{input_of};
ghost use Rattle.export.specs.Structs.{controls_of, handle_of, limits_of};
ghost use Rattle.multigrid_c.specs.Exported.{BuildExported, UpdateExported, SolveExported, CountExported};

use export::{AnswerForC, BuiltForC, CountForC, HierarchyForC, OptionsForC, ReportForC};
use multigrid::update_values;
use solver::MultigridLevelStatistics;

// `new`: rows are paired by the values.
#[unsafe(no_mangle)]
pub extern "C" fn multigrid_new(
    rows: usize,
    offsets: &[u32],
    columns: &[u32],
    values: &[f64],
    options: OptionsForC,
    words: &mut [u32],
    floats: &mut [f64],
    statistics: &mut [MultigridLevelStatistics],
) -> BuiltForC
    ensures { BuildExported words.old words.new floats.old floats.new statistics.old statistics.new (input_of rows offsets.now columns.now values.now false [] (controls_of options)) options result }
{
    let controls = export::read_options(options);
    let built = multigrid::new(
        rows, offsets, columns, values, controls, words, floats, statistics,
    );
    export::tell_built(options, built)
}

// `new_with_face_weights`: rows are paired by weights that are given.
#[unsafe(no_mangle)]
pub extern "C" fn multigrid_new_with_face_weights(
    rows: usize,
    offsets: &[u32],
    columns: &[u32],
    values: &[f64],
    face_weights: &[f64],
    options: OptionsForC,
    words: &mut [u32],
    floats: &mut [f64],
    statistics: &mut [MultigridLevelStatistics],
) -> BuiltForC
    ensures { BuildExported words.old words.new floats.old floats.new statistics.old statistics.new (input_of rows offsets.now columns.now values.now true face_weights.now (controls_of options)) options result }
{
    let controls = export::read_options(options);
    let built = multigrid::new_with_face_weights(
        rows,
        offsets,
        columns,
        values,
        face_weights,
        controls,
        words,
        floats,
        statistics,
    );
    export::tell_built(options, built)
}

// `update_values`, of a handle that the struct stands for, whatever it holds.
#[unsafe(no_mangle)]
pub extern "C" fn multigrid_update_values(
    hierarchy: HierarchyForC,
    offsets: &[u32],
    columns: &[u32],
    values: &[f64],
    words: &[u32],
    floats: &mut [f64],
    statistics: &[MultigridLevelStatistics],
) -> AnswerForC
    ensures { UpdateExported (handle_of hierarchy) words.now floats.old floats.new (length statistics.now) offsets.now columns.now values.now result }
{
    let handle = export::read_handle(hierarchy);
    let updated = update_values(handle, offsets, columns, values, words, floats, statistics);
    export::tell_updated(updated)
}

// `solve`, of a handle that the struct stands for, whatever it holds.
#[unsafe(no_mangle)]
pub extern "C" fn multigrid_solve(
    hierarchy: HierarchyForC,
    words: &[u32],
    floats: &mut [f64],
    statistics: &mut [MultigridLevelStatistics],
    rhs: &[f64],
    x: &mut [f64],
    absolute_tolerance: f64,
    relative_tolerance: f64,
    max_iterations: u64,
) -> ReportForC
    ensures { SolveExported (handle_of hierarchy) words.now floats.old floats.new statistics.old statistics.new rhs.now x.old x.new (limits_of absolute_tolerance relative_tolerance max_iterations) result }
{
    let handle = export::read_handle(hierarchy);
    let limits = export::read_limits(absolute_tolerance, relative_tolerance, max_iterations);
    let solved = multigrid::solve(handle, words, floats, statistics, rhs, x, limits);
    export::tell_solved(solved)
}

// `statistics`, of a handle that the struct stands for, whatever it holds.
#[unsafe(no_mangle)]
pub extern "C" fn multigrid_statistics(
    hierarchy: HierarchyForC,
    words: &[u32],
    floats: &[f64],
    statistics: &[MultigridLevelStatistics],
) -> CountForC
    ensures { CountExported (handle_of hierarchy) words.now floats.now (length statistics.now) result }
{
    let handle = export::read_handle(hierarchy);
    let counted = multigrid::statistics(handle, words, floats, statistics);
    export::tell_counted(counted)
}
