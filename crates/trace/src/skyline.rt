// The skyline of the rectangles placed so far (layout.rs: trace).
ghost use Rattle.std.specs.Prelude.{◌≤◌, ◌≡◌, length};

// One bottom line for each unit column: width less 1 of them.
#[derive(Clone, Copy)]
pub struct Skyline {
    pub bottoms: [u8; 127],
    pub used: usize,
    pub ghost room: { length bottoms ≡ 127 },
    pub ghost some: { 1 ≤ used },
    pub ghost few: { used ≤ 127 },
}

#[derive(Clone, Copy)]
pub struct Corner {
    pub top: usize,
    pub left: usize,
}

impl Skyline {
    ghost use Rattle.std.specs.Prelude.{ℕ, ◌-◌, ◌≤◌, ◌<◌, ◌≡◌, get_or, replicate};
    ghost use Rattle.grid.specs.Trace.{stands_level, raise, lowest as lowest_of, leftmost};
    ghost use Rattle.trace.specs.Skylines.{sky_of, FirstFrom};

    // At first 0 in all.
    pub fn new(width: usize) -> Self
        requires { (1 < width) × (width ≤ 128) }
        ensures { (result.used ≡ width - 1) × (sky_of result ≡ replicate (width - 1) 0) }
    {
        Skyline {
            bottoms: [0; 127],
            used: width - 1,
        }
    }

    fn levels(&self) -> &[u8]
        ensures { result.now ≡ sky_of self.now }
    {
        &self.bottoms[..self.used]
    }

    // Do columns left up to right all stand at this level?
    pub fn is_level(&self, left: usize, right: usize, level: usize) -> bool
        requires { (left ≤ right) × (right ≤ self.now.used) }
        ensures { result ≡ stands_level (sky_of self.now) (record { top = level; left = left; bottom = 0; right = right }) }
    {
        let under = &self.levels()[left..right];
        under.iter().all(|bottom| *bottom as usize == level)
    }

    // Columns left up to right rise to the bottom of a rectangle.
    pub fn raised(mut self, left: usize, right: usize, bottom: usize) -> Self
        requires { (left ≤ right) × (right ≤ self.used) × (bottom < 256) }
        ensures { (result.used ≡ self.used)
            × (sky_of result ≡ raise (record { top = 0; left = left; bottom = bottom; right = right }) (sky_of self)) }
    {
        self.bottoms[left..right].fill(bottom as u8);
        self
    }

    // The first column from `from` on that stands at this level, or the number of columns.
    fn first_at(&self, from: usize, level: usize) -> usize
        requires { from ≤ self.now.used }
        ensures { FirstFrom (sky_of self.now) from level result }
    {
        let rest = &self.levels()[from..];
        match rest.iter().position(|bottom| *bottom as usize == level) {
            Some(n) => from + n,
            None => self.used,
        }
    }

    fn lowest(&self) -> usize
        ensures { result ≡ lowest_of (sky_of self.now) }
    {
        let levels = self.levels();
        let lowest = levels
            .iter()
            .fold(levels[0], |low, bottom| low.min(*bottom));
        lowest as usize
    }

    // The leftmost lowest column. None stands below this level, and those before `from` above it.
    pub fn next_corner(&self, from: usize, level: usize) -> Corner
        requires inside { from ≤ self.now.used }
        requires none_below { (x : ℕ) → x < self.now.used → level ≤ get_or (sky_of self.now) x 0 }
        requires above_before { (x : ℕ) → x < from → level < get_or (sky_of self.now) x 0 }
        ensures { (result.top ≡ lowest_of (sky_of self.now)) × (result.left ≡ leftmost (sky_of self.now)) × (result.left < self.now.used) }
    {
        let left = self.first_at(from, level);
        if left < self.used {
            return Corner { top: level, left };
        }
        let top = self.lowest();
        Corner {
            top,
            left: self.first_at(0, top),
        }
    }
}
