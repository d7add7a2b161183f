//! What is shown, in lines.
use crate::showing::Shown;
use fkv_base::{Key, Shape, Value};
use fkv_looking::{
    Capacity, CommitKind, CommitLook, DamageLook, Found, PageLook, SlotLook, StoreLook, Uses,
};
use fkv_record::{Format, LostRange};
use std::io::{self, Write};

/// Writes what is shown: a line for each thing.
pub(crate) fn write_look<W: Write>(output: &mut W, shown: &Shown) -> io::Result<()> {
    let look = &shown.look;
    match look.shape {
        Some(shape) => write_shape(output, shape)?,
        None => writeln!(output, "no shape")?,
    }
    write_slot(output, 0, &look.slots.0)?;
    write_slot(output, 1, &look.slots.1)?;
    match look.in_force {
        Some(index) => writeln!(output, "slot {index} is in force")?,
        None => writeln!(output, "no slot is in force")?,
    }
    match &look.found {
        Found::NoStore => writeln!(output, "no store")?,
        Found::Damaged(damage) => write_damage(output, damage)?,
        Found::Store(store) => write_store(output, store)?,
    }
    if let Some(pairs) = &shown.pairs {
        write_pairs(output, pairs)?;
    }
    Ok(())
}

/// Writes each number behind its word.
fn write_numbers<W: Write>(output: &mut W, numbers: &[(&str, u64)]) -> io::Result<()> {
    for (word, number) in numbers {
        write!(output, "{word}{number}")?;
    }
    Ok(())
}

fn write_shape<W: Write>(output: &mut W, shape: Shape) -> io::Result<()> {
    let class = if shape.is_specified() {
        "shape "
    } else {
        "large "
    };
    let sizes = [
        (class, shape.bucket_bits),
        (" ", shape.page),
        (" ", shape.frames),
        (" ", shape.mutable),
        (" ", shape.sessions),
        (" ", shape.overflow),
        (" ", shape.disk_pages),
    ];
    write_numbers(output, &sizes)?;
    writeln!(output)
}

fn write_slot<W: Write>(output: &mut W, index: u64, slot: &SlotLook) -> io::Result<()> {
    match slot {
        SlotLook::Closed => writeln!(output, "slot {index} closed"),
        SlotLook::Unspelled(number) => {
            writeln!(output, "slot {index} commit {number} and no slot's bytes")
        }
        SlotLook::Commit(commit) => {
            write!(output, "slot {index} ")?;
            write_commit(output, commit)
        }
    }
}

fn write_commit<W: Write>(output: &mut W, commit: &CommitLook) -> io::Result<()> {
    let slot = &commit.slot;
    write!(output, "commit {} {}", slot.number, kind_name(commit.kind))?;
    let numbers = [
        (" format ", format_number(commit.format)),
        (" end ", slot.end.0),
        (" checkpoint ", slot.checkpoint),
        (" from ", slot.first.0),
        (" triples ", slot.triples),
        (" area ", slot.area),
    ];
    write_numbers(output, &numbers)?;
    if slot.begin.0 != 1 {
        write!(output, " begin {}", slot.begin.0)?;
    }
    output.write_all(b" points")?;
    for point in slot.points.serials.as_slice() {
        write!(output, " {}", point.0)?;
    }
    output.write_all(b" lost")?;
    write_ranges(output, slot.lost.ranges.as_slice())
}

/// Writes lost ranges, to the end of the line.
fn write_ranges<W: Write>(output: &mut W, ranges: &[LostRange]) -> io::Result<()> {
    for range in ranges {
        write!(output, " {}:{}", range.to.0, range.version.0)?;
    }
    writeln!(output)
}

/// The name of a kind of commits.
pub(crate) fn kind_name(kind: CommitKind) -> &'static str {
    match kind {
        CommitKind::Full => "full",
        CommitKind::Log => "log",
    }
}

/// The number of a format, 1 to 3.
pub(crate) fn format_number(format: Format) -> u64 {
    match format {
        Format::First => 1,
        Format::Second => 2,
        Format::Third => 3,
        Format::Fourth => 4,
    }
}

fn write_damage<W: Write>(output: &mut W, damage: &DamageLook) -> io::Result<()> {
    write!(
        output,
        "damaged {} {} bytes ",
        damage.part.name(),
        damage.place
    )?;
    for byte in &damage.bytes {
        write!(output, "{byte:02x}")?;
    }
    writeln!(output)
}

fn write_store<W: Write>(output: &mut W, store: &StoreLook) -> io::Result<()> {
    write_uses(output, &store.uses)?;
    write_buckets(output, &store.index.buckets)?;
    output.write_all(b"lost in hand")?;
    write_ranges(output, store.opened.lost.as_slice())?;
    write_pages(output, &store.pages)
}

fn write_buckets<W: Write>(output: &mut W, buckets: &[u64]) -> io::Result<()> {
    output.write_all(b"buckets by entries")?;
    for many in buckets {
        write!(output, " {many}")?;
    }
    writeln!(output)
}

fn write_pages<W: Write>(output: &mut W, pages: &[PageLook]) -> io::Result<()> {
    let mut number = 0u64;
    for page in pages {
        write_page(output, number, page)?;
        number = number.saturating_add(1);
    }
    Ok(())
}

fn write_uses<W: Write>(output: &mut W, uses: &Uses) -> io::Result<()> {
    write_use(output, "entries", uses.entries)?;
    write_use(output, "records", uses.records)?;
    write_use(output, "commits", uses.commits)?;
    write_use(output, "sessions", uses.sessions)
}

fn write_use<W: Write>(output: &mut W, name: &str, capacity: Capacity) -> io::Result<()> {
    writeln!(output, "{name} {} of {}", capacity.used, capacity.most)
}

fn write_page<W: Write>(output: &mut W, number: u64, page: &PageLook) -> io::Result<()> {
    let numbers = [
        ("page ", number),
        (" from ", page.first.0),
        (" to ", page.end.0),
        (" valid ", page.valid),
        (" invalid ", page.invalid),
        (" lost ", page.lost),
        (" newer ", page.newer),
        (" none ", page.no_record),
    ];
    write_numbers(output, &numbers)?;
    writeln!(output)
}

fn write_pairs<W: Write>(output: &mut W, pairs: &[(Key, Value)]) -> io::Result<()> {
    writeln!(output, "pairs {}", pairs.len())?;
    for (key, value) in pairs {
        writeln!(output, "pair {} {}", key.0, value.0)?;
    }
    Ok(())
}
