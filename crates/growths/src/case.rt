// What a line asks for.
ghost use Rattle.std.specs.Prelude.{◌<◌, ◌≤◌};

use zones::Ticks;

// A see on the channel, and how many ticks of growth follow it.
#[derive(Clone, Copy, Debug, PartialEq, Eq)]
pub(crate) struct Sight {
    pub(crate) channel: u8,
    pub(crate) behind: Ticks,
}

#[derive(Clone, Copy, Debug, PartialEq, Eq)]
pub(crate) struct Case<'a> {
    pub(crate) sheet: &'a str,
    pub(crate) ticks: Ticks,
    pub(crate) entries: usize,
    pub(crate) loose: bool,
    pub(crate) sight: Option<Sight>,
    ghost some: { 0 < entries },
    ghost few: { entries ≤ 256 },
}

fn ticks_of(text: &str) -> Option<Ticks> {
    Ticks::new(text.parse().ok()?)
}

fn loose_of(text: &str) -> Option<bool> {
    match text {
        "strict" => Some(false),
        "loose" => Some(true),
        _ => None,
    }
}

// A watch goes so far and no further, and the ticks before the see count, too.
fn sight_of(before: Ticks, channel: &str, behind: &str) -> Option<Sight> {
    let behind = ticks_of(behind)?;
    Ticks::new(before.count() + behind.count())?;
    Some(Sight {
        channel: channel.parse().ok()?,
        behind,
    })
}

// The case of a line, or None where a field has no such value or the line has too few or too many.
pub(crate) fn case_of(text: &str) -> Option<Case<'_>> {
    let mut fields = text.split(' ');
    let sheet = fields.next()?;
    let ticks = ticks_of(fields.next()?)?;
    let entries = fields.next()?.parse().ok()?;
    let loose = loose_of(fields.next()?)?;
    let sight = match fields.next() {
        None => None,
        Some(channel) => Some(sight_of(ticks, channel, fields.next()?)?),
    };
    if entries == 0 || entries > 256 || fields.next().is_some() {
        return None;
    }
    Some(Case {
        sheet,
        ticks,
        entries,
        loose,
        sight,
    })
}
