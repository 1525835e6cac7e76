//! What a section is: a header, and the lines up to the next one.
ghost use Rattle.std.specs.Prelude.{◌<◌, ◌+◌, ◌^◌, length};

/// What a section is about.
#[derive(Clone, Copy)]
pub enum Title {
    Options,
    Script,
    Files,
    Logic,
    Report,
    Test,
}

/// A section: the number of its header's line, what stands in the header's brackets, and the lines behind it.
#[derive(Clone, Copy)]
pub struct Section<'t, 'a> {
    pub number: u32,
    pub header: &'a str,
    pub lines: &'t [&'a str],
    pub ghost fits: { number + 1 + length lines.now < 2 ^ 32 },
}
