// The cells of a box: numbers, places along the axes, and faces.
ghost use Rattle.std.specs.Prelude.{◌≡◌, ◌+◌, ◌<◌};
ghost use Rattle.load.specs.Steps.{Few, Placed, FacesAre, RowOk};

// How many cells stand along each axis.
#[derive(Clone, Copy)]
pub struct Extents {
    pub width: usize,
    pub height: usize,
    pub depth: usize,
}

// A cell: its number, and where it stands along each axis.
#[derive(Clone, Copy)]
pub struct Cell {
    pub number: usize,
    pub x: usize,
    pub y: usize,
    pub z: usize,
}

// Which faces a cell has: behind it along each axis, and ahead.
#[derive(Clone, Copy)]
pub struct Faces {
    pub left: bool,
    pub up: bool,
    pub shallower: bool,
    pub right: bool,
    pub down: bool,
    pub deeper: bool,
}

// A cell of a box of at most 65,536 cells: its number and where it stands along each axis agree. One cell behind the last is a place
// too, so that a walk may end there.
#[derive(Clone, Copy)]
pub struct Place {
    pub extents: Extents,
    pub cell: Cell,
    pub ghost few: { Few extents },
    pub ghost placed: { Placed extents cell },
}

impl Place {
    // The first cell.
    pub fn first(extents: Extents) -> Place
        requires few { Few extents }
        ensures extents_kept { result.extents ≡ extents }
        ensures number_value { result.cell.number ≡ 0 }
    {
        let cell = Cell {
            number: 0,
            x: 0,
            y: 0,
            z: 0,
        };
        Place { extents, cell }
    }

    // The faces of the cell.
    pub fn faces(self) -> Faces
        requires z_lt_depth { self.cell.z < self.extents.depth }
        ensures { FacesAre self.extents self.cell.number result }
    {
        let e = self.extents;
        let c = self.cell;
        Faces {
            left: 0 < c.x,
            up: 0 < c.y,
            shallower: 0 < c.z,
            right: c.x + 1 < e.width,
            down: c.y + 1 < e.height,
            deeper: c.z + 1 < e.depth,
        }
    }

    // The cell after it.
    pub fn following(self) -> Place
        requires number_bound { self.cell.number < 65536 }
        ensures extents_kept { result.extents ≡ self.extents }
        ensures number_value { result.cell.number ≡ self.cell.number + 1 }
    {
        let extents = self.extents;
        let c = self.cell;
        let number = c.number + 1;
        if c.x + 1 < extents.width {
            let cell = Cell {
                number,
                x: c.x + 1,
                ..c
            };
            return Place { extents, cell };
        }
        if c.y + 1 < extents.height {
            let cell = Cell {
                number,
                x: 0,
                y: c.y + 1,
                ..c
            };
            return Place { extents, cell };
        }
        let cell = Cell {
            number,
            x: 0,
            y: 0,
            z: c.z + 1,
        };
        Place { extents, cell }
    }
}

// A cell that a row is laid for, with its faces: where it has one behind it, there is a cell so far behind, and numbers stay small.
#[derive(Clone, Copy)]
pub struct Row {
    pub extents: Extents,
    pub number: usize,
    pub faces: Faces,
    pub ghost ok: { RowOk extents number faces },
}
