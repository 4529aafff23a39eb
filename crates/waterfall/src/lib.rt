// Draws rows of a waterfall picture, as rigflow-client/src/ui/waterfall.rs does.
#![tactic(auto)]

ghost use Rattle.std.specs.Prelude.{◌≡◌, ◌+◌, ◌*◌, ◌<◌, map, length};
ghost use Rattle.model.specs.Bytes.{placed};
ghost use Rattle.model.specs.Floats.{◌-f◌, maxf, f1};
ghost use Rattle.model.specs.Picture.{count_from, picture_after};
ghost use Rattle.spectrum_utils.specs.Levels.{color_table};
ghost use Rattle.waterfall.specs.Requires.{Drawable, Further, Columns};
ghost use Rattle.waterfall.specs.Shown.{bin_color, column_color};

// How far the columns so far reach into the bins that show: so many bins, and a rest of so many parts of one, of which
// a bin has as many as the picture has columns.
#[derive(Clone, Copy)]
struct Reach {
    bin: usize,
    rest: usize,
}

// The two one after the other.
fn further(reach: Reach, by: Reach, width: usize) -> Reach
    requires { Further reach.bin reach.rest by.bin by.rest width }
    ensures { (result.bin * width + result.rest ≡ reach.bin * width + reach.rest + (by.bin * width + by.rest)) × (result.rest < width) }
{
    let bin = reach.bin + by.bin;
    let rest = reach.rest + by.rest;
    if rest < width {
        return Reach { bin, rest };
    }
    Reach {
        bin: bin + 1,
        rest: rest - width,
    }
}

// What shows: a bin, and its colour.
#[derive(Clone, Copy)]
struct Shown {
    bin: usize,
    color: u32,
}

// How bins show: the range from `bottom` on, and the colours of all levels.
#[derive(Drop)]
struct Levels {
    bottom: f32,
    range: f32,
    colors: [u32; 256],
    ghost table: { colors ≡ color_table },
}

impl Levels {
    // Those of a range of at least 1 below `top`.
    fn below(top: f32, range: f32) -> Self
        ensures { (result.bottom ≡ top -f maxf range f1) × (result.range ≡ maxf range f1) }
    {
        let least = spectrum_utils::least_range(range);
        Levels {
            bottom: top - least,
            range: least,
            colors: spectrum_utils::color_table(),
        }
    }

    // The colour of a bin.
    fn color_at(&self, bins: &[f32], bin: usize) -> u32
        requires { bin < length bins.now }
        ensures { result ≡ bin_color self.now.bottom self.now.range bins.now bin }
    {
        let level = spectrum_utils::level_above(bins[bin], self.bottom, self.range);
        self.colors[level as usize]
    }

    // What shows at a bin. Where it is the last one again, its colour is not worked out again.
    fn shown_at(&self, last: Shown, bins: &[f32], bin: usize) -> Shown
        requires { (bin < length bins.now) × (last.color ≡ bin_color self.now.bottom self.now.range bins.now last.bin) }
        ensures { (result.bin ≡ bin) × (result.color ≡ bin_color self.now.bottom self.now.range bins.now bin) }
    {
        if last.bin == bin {
            return last;
        }
        Shown {
            bin,
            color: self.color_at(bins, bin),
        }
    }
}

// Draws the top row from the bins that show, column after column.
fn draw_columns(buffer: &mut [u32], width: usize, bins: &[f32], levels: &Levels)
    requires { Columns width (length bins.now) (length buffer.old) }
    ensures { buffer.new ≡ placed 0 (map (column_color width levels.now.bottom levels.now.range bins.now) (count_from 0 width)) buffer.old }
{
    let by = Reach {
        bin: bins.len() / width,
        rest: bins.len() % width,
    };
    let mut reach = Reach { bin: 0, rest: 0 };
    let mut shown = Shown {
        bin: 0,
        color: levels.color_at(bins, 0),
    };
    for pixel in buffer[..width].iter_mut() {
        shown = levels.shown_at(shown, bins, reach.bin);
        *pixel = shown.color;
        reach = further(reach, by, width);
    }
}

// Draws a new row at the top of the picture: the rows that are there move down by one.
pub fn draw_row_db(
    buffer: &mut [u32],
    wf_width: usize,
    wf_height: usize,
    row_db: &[f32],
    top_db: f32,
    range_db: f32,
    zoom: f32,
)
    requires { Drawable wf_width wf_height (length buffer.old) (length row_db.now) }
    ensures { buffer.new ≡ picture_after wf_width wf_height top_db range_db zoom row_db.now buffer.old }
{
    areas::move_up(buffer, 0, wf_width, (wf_height - 1) * wf_width);
    let window = spectrum_utils::zoom_window(row_db.len(), zoom);
    let levels = Levels::below(top_db, range_db);
    draw_columns(buffer, wf_width, &row_db[window.start..window.end], &levels);
}
