// S of a column of phases, in three loops: where each phase lies in the table, which line starts there, and the value on the line. Only the
// second reads the table. The first compares floats and the second reads where the first says, so only the third can do several places
// at once. The columns share m: slices would need a clause that their lengths agree.
ghost use Rattle.std.specs.Prelude.{◌≡◌, ◌≤◌, length, get_or};
ghost use Rattle.std.specs.Float.{nan};
ghost use Rattle.player.specs.inner.Ranges.{AllPhases};
ghost use Rattle.player.specs.inner.Columns.{Filled};
ghost use Rattle.wave_table.specs.Wave.{Waves};
ghost use Rattle.filters.specs.Wave.{rest_of, sine_of};
ghost use Rattle.player.specs.inner.Sines.{cell_float, index_of, cell_start, cell_rise, line_at, AllCells};
ghost use Rattle.voice.specs.Limits.{max_partials};

use crate::partials::floor::floor;

// The cell of each phase, and what is left of its place. The phases come as a slice: of its items the proof knows that they are floats of
// 32 bits.
fn places(cells: &mut [f32; 32], rests: &mut [f32; 32], phases: &[f32], m: usize)
    requires { (m ≤ max_partials) × (m ≤ length phases.now) × AllPhases phases.now m }
    ensures { Filled cells.new (λ i. cell_float (get_or phases.now i nan)) m × AllCells cells.new m ×
        Filled rests.new (λ i. rest_of (get_or phases.now i nan)) m }
{
    for i in 0..m {
        let q = phases[i] * 1024.0;
        let f = floor(q);
        cells[i] = f;
        rests[i] = q - f;
    }
}

// Where the line of each cell starts, and how far it rises.
fn lines<'a>(
    starts: &mut [f32; 32],
    rises: &mut [f32; 32],
    cells: &'a [f32; 32],
    wave: &'a [f32; 1025],
    m: usize,
)
    requires { Waves wave.now × (m ≤ max_partials) × AllCells cells.now m }
    ensures { Filled starts.new (λ i. cell_start (index_of (get_or cells.now i nan))) m × Filled rises.new
        (λ i. cell_rise (index_of (get_or cells.now i nan))) m }
{
    for i in 0..m {
        let k = (cells[i] as u32) as usize;
        let a = wave[k];
        starts[i] = a;
        rises[i] = wave[k + 1] - a;
    }
}

// The value on each line. Its start is in the column that the value goes to.
fn values<'a>(sines: &mut [f32; 32], rests: &'a [f32; 32], rises: &'a [f32; 32], m: usize)
    requires { m ≤ max_partials }
    ensures { Filled sines.new (λ i. line_at (get_or sines.old i nan) (get_or rests.now i nan)
        (get_or rises.now i nan)) m }
{
    for i in 0..m {
        sines[i] = (sines[i] + rests[i] * rises[i]) * 1.1920928955078125e-7;
    }
}

// S of each phase, and the columns that it is worked out in: they are made once for all samples.
#[derive(Clone, Copy, Default)]
pub struct Sines {
    pub values: [f32; 32],
    cells: [f32; 32],
    rests: [f32; 32],
    rises: [f32; 32],
}

impl Sines {
    pub fn look_up(&mut self, phases: &[f32; 32], wave: &[f32; 1025], m: usize)
        requires { Waves wave.now × (m ≤ max_partials) × AllPhases phases.now m }
        ensures { Filled self.new.values (λ i. sine_of (get_or phases.now i nan)) m }
    {
        places(&mut self.cells, &mut self.rests, phases, m);
        lines(&mut self.values, &mut self.rises, &self.cells, wave, m);
        values(&mut self.values, &self.rests, &self.rises, m);
    }
}
