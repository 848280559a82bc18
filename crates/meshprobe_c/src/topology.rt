// The functions of `faces`: the pattern part of a kernel. The places of the pattern and of its faces cross as ten numbers. Each export
// makes the struct of them in place: a function for it would take the same ten.
ghost use Rattle.std.specs.Prelude.{◌≡◌, ◌≤◌, length};
ghost use Rattle.refusal.specs.Outcome.{verdict_of};
ghost use Rattle.faces.specs.Faces.{mirrored_of, diagonals_asked};
ghost use Rattle.faces.specs.Contract.{pattern_at, OffsetsOk, OffsetsDone, FillOk, Filled, MirrorsOk, MirrorsDone};
ghost use Rattle.faces.specs.Contract.{DiagonalsOk, DiagonalsDone, CoupledOk, CoupledCount, CoupledRowsOk, CoupledRows};
ghost use Rattle.meshprobe_c.specs.Mesh.{flag, topology_of, Told};

use faces::{Faces, diagonals, mirrors};
use meshprobe::{answer, number};

#[unsafe(no_mangle)]
pub extern "C" fn probe_face_offsets(
    w: &mut [u32],
    rows: usize,
    entries: usize,
    faces: usize,
    offsets: usize,
    columns: usize,
    starts: usize,
    diagonals: usize,
    neighbors: usize,
    uppers: usize,
    lowers: usize,
) -> usize
    requires { OffsetsOk w.old (topology_of rows entries faces offsets columns starts diagonals neighbors uppers lowers) }
    ensures { OffsetsDone w.old w.new
        (topology_of rows entries faces offsets columns starts diagonals neighbors uppers lowers) result }
{
    let s = Faces {
        rows,
        entries,
        faces,
        offsets,
        columns,
        starts,
        diagonals,
        neighbors,
        uppers,
        lowers,
    };
    faces::face_offsets(w, s)
}

#[unsafe(no_mangle)]
pub extern "C" fn probe_fill_faces(
    w: &mut [u32],
    rows: usize,
    entries: usize,
    faces: usize,
    offsets: usize,
    columns: usize,
    starts: usize,
    diagonals: usize,
    neighbors: usize,
    uppers: usize,
    lowers: usize,
)
    requires { FillOk w.old (topology_of rows entries faces offsets columns starts diagonals neighbors uppers lowers) }
    ensures { Filled w.old w.new
        (topology_of rows entries faces offsets columns starts diagonals neighbors uppers lowers) }
{
    let s = Faces {
        rows,
        entries,
        faces,
        offsets,
        columns,
        starts,
        diagonals,
        neighbors,
        uppers,
        lowers,
    };
    faces::fill_faces(w, s);
}

#[unsafe(no_mangle)]
pub extern "C" fn probe_mirrors(
    w: &mut [u32],
    rows: usize,
    entries: usize,
    faces: usize,
    offsets: usize,
    columns: usize,
    starts: usize,
    diagonals: usize,
    neighbors: usize,
    uppers: usize,
    lowers: usize,
) -> u8
    requires { MirrorsOk w.old (topology_of rows entries faces offsets columns starts diagonals neighbors uppers lowers) }
    ensures value { result ≡ flag (mirrored_of
        (pattern_at w.old (topology_of rows entries faces offsets columns starts diagonals neighbors uppers lowers))) }
    ensures mirrors_done { MirrorsDone w.old w.new
        (topology_of rows entries faces offsets columns starts diagonals neighbors uppers lowers)
        (mirrored_of (pattern_at w.old (topology_of rows entries faces offsets columns starts diagonals neighbors uppers lowers))) }
{
    let s = Faces {
        rows,
        entries,
        faces,
        offsets,
        columns,
        starts,
        diagonals,
        neighbors,
        uppers,
        lowers,
    };
    number(mirrors::mirrors(w, s))
}

#[unsafe(no_mangle)]
pub extern "C" fn probe_diagonals(
    w: &mut [u32],
    rows: usize,
    entries: usize,
    faces: usize,
    offsets: usize,
    columns: usize,
    starts: usize,
    diagonals: usize,
    neighbors: usize,
    uppers: usize,
    lowers: usize,
    level: u64,
    place: &mut [u64],
) -> u64
    requires diagonals_ok { DiagonalsOk w.old (topology_of rows entries faces offsets columns starts diagonals neighbors uppers lowers) }
    requires in_bounds { 2 ≤ length place.old }
    ensures told { Told
        (verdict_of (diagonals_asked level
        (pattern_at w.old (topology_of rows entries faces offsets columns starts diagonals neighbors uppers lowers))))
        place.old place.new result }
    ensures diagonals_done { DiagonalsDone w.old w.new
        (topology_of rows entries faces offsets columns starts diagonals neighbors uppers lowers) level
        (verdict_of (diagonals_asked level
        (pattern_at w.old (topology_of rows entries faces offsets columns starts diagonals neighbors uppers lowers)))) }
{
    let s = Faces {
        rows,
        entries,
        faces,
        offsets,
        columns,
        starts,
        diagonals,
        neighbors,
        uppers,
        lowers,
    };
    answer(diagonals::diagonals(w, s, level), place)
}

#[unsafe(no_mangle)]
pub extern "C" fn probe_coupled_count(
    w: &[u32],
    rows: usize,
    entries: usize,
    faces: usize,
    offsets: usize,
    columns: usize,
    starts: usize,
    diagonals: usize,
    neighbors: usize,
    uppers: usize,
    lowers: usize,
) -> usize
    requires { CoupledOk w.now (topology_of rows entries faces offsets columns starts diagonals neighbors uppers lowers) }
    ensures { CoupledCount w.now
        (topology_of rows entries faces offsets columns starts diagonals neighbors uppers lowers) result }
{
    let s = Faces {
        rows,
        entries,
        faces,
        offsets,
        columns,
        starts,
        diagonals,
        neighbors,
        uppers,
        lowers,
    };
    faces::coupled_count(w, s)
}

#[unsafe(no_mangle)]
pub extern "C" fn probe_coupled_rows(
    w: &mut [u32],
    rows: usize,
    entries: usize,
    faces: usize,
    offsets: usize,
    columns: usize,
    starts: usize,
    diagonals: usize,
    neighbors: usize,
    uppers: usize,
    lowers: usize,
    to: usize,
)
    requires { CoupledRowsOk w.old (topology_of rows entries faces offsets columns starts diagonals neighbors uppers lowers) to }
    ensures { CoupledRows w.old w.new
        (topology_of rows entries faces offsets columns starts diagonals neighbors uppers lowers) to }
{
    let s = Faces {
        rows,
        entries,
        faces,
        offsets,
        columns,
        starts,
        diagonals,
        neighbors,
        uppers,
        lowers,
    };
    faces::coupled_rows(w, s, to);
}
