//! What is shown, as one value of JSON.
use crate::showing::Shown;
use crate::text::{format_number, kind_name};
use fkv_base::{Key, Serial, Shape, Value as Word};
use fkv_looking::{Capacity, CommitLook, DamageLook, Found, PageLook, SlotLook, StoreLook, Uses};
use fkv_record::LostRange;
use serde_json::{Map, Value, push, put};
use std::alloc::{AllocError, Global};

/// An object whose members are these numbers. Others are put into it.
fn object_of(alloc: Global, numbers: &[(&str, u64)]) -> Result<Map<String, Value>, AllocError> {
    let mut object = Map::new(alloc);
    for (name, number) in numbers {
        put(&mut object, alloc, name, Value::from(*number))?;
    }
    Ok(object)
}

/// A text as a member of an object.
fn put_text(
    alloc: Global,
    object: &mut Map<String, Value>,
    name: &str,
    text: &str,
) -> Result<(), AllocError> {
    put(object, alloc, name, Value::try_from_str(alloc, text)?)
}

/// The list of two numbers.
fn two_of(alloc: Global, first: u64, second: u64) -> Result<Value, AllocError> {
    let mut list = Vec::new(alloc);
    push(&mut list, Value::from(first))?;
    push(&mut list, Value::from(second))?;
    Ok(Value::Array(list))
}

/// The value of what is shown.
pub(crate) fn json_of(alloc: Global, shown: &Shown) -> Result<Value, AllocError> {
    let look = &shown.look;
    let mut object = Map::new(alloc);
    put(
        &mut object,
        alloc,
        "shape",
        json_of_shape(alloc, look.shape)?,
    )?;
    put(
        &mut object,
        alloc,
        "slots",
        json_of_slots(alloc, &look.slots)?,
    )?;
    put(&mut object, alloc, "in_force", json_of_index(look.in_force))?;
    put(
        &mut object,
        alloc,
        "found",
        json_of_found(alloc, &look.found)?,
    )?;
    put(
        &mut object,
        alloc,
        "pairs",
        json_of_pairs(alloc, &shown.pairs)?,
    )?;
    Ok(Value::Object(object))
}

fn json_of_index(index: Option<u64>) -> Value {
    match index {
        Some(index) => Value::from(index),
        None => Value::Null,
    }
}

fn json_of_shape(alloc: Global, shape: Option<Shape>) -> Result<Value, AllocError> {
    let Some(shape) = shape else {
        return Ok(Value::Null);
    };
    let sizes = [
        ("bucket_bits", shape.bucket_bits),
        ("page", shape.page),
        ("frames", shape.frames),
        ("mutable", shape.mutable),
        ("sessions", shape.sessions),
        ("overflow", shape.overflow),
        ("disk_pages", shape.disk_pages),
    ];
    let mut object = object_of(alloc, &sizes)?;
    put(
        &mut object,
        alloc,
        "specified",
        Value::Bool(shape.is_specified()),
    )?;
    Ok(Value::Object(object))
}

fn json_of_slots(alloc: Global, slots: &(SlotLook, SlotLook)) -> Result<Value, AllocError> {
    let mut list = Vec::new(alloc);
    push(&mut list, json_of_slot(alloc, &slots.0)?)?;
    push(&mut list, json_of_slot(alloc, &slots.1)?)?;
    Ok(Value::Array(list))
}

fn json_of_slot(alloc: Global, slot: &SlotLook) -> Result<Value, AllocError> {
    match slot {
        SlotLook::Closed => json_of_state(alloc, "closed", &[]),
        SlotLook::Unspelled(number) => json_of_state(alloc, "unspelled", &[("commit", *number)]),
        SlotLook::Commit(commit) => json_of_commit(alloc, commit),
    }
}

fn json_of_state(alloc: Global, state: &str, numbers: &[(&str, u64)]) -> Result<Value, AllocError> {
    let mut object = object_of(alloc, numbers)?;
    put_text(alloc, &mut object, "state", state)?;
    Ok(Value::Object(object))
}

fn json_of_commit(alloc: Global, commit: &CommitLook) -> Result<Value, AllocError> {
    let slot = &commit.slot;
    let numbers = [
        ("commit", slot.number),
        ("format", format_number(commit.format)),
        ("end", slot.end.0),
        ("checkpoint", slot.checkpoint),
        ("from", slot.first.0),
        ("triples", slot.triples),
        ("area", slot.area),
    ];
    let mut object = object_of(alloc, &numbers)?;
    if slot.begin.0 != 1 {
        put(&mut object, alloc, "begin", Value::from(slot.begin.0))?;
    }
    put_text(alloc, &mut object, "state", "commit")?;
    put_text(alloc, &mut object, "kind", kind_name(commit.kind))?;
    let points = json_of_points(alloc, slot.points.serials.as_slice())?;
    put(&mut object, alloc, "points", points)?;
    let lost = json_of_ranges(alloc, slot.lost.ranges.as_slice())?;
    put(&mut object, alloc, "lost", lost)?;
    Ok(Value::Object(object))
}

fn json_of_points(alloc: Global, points: &[Serial]) -> Result<Value, AllocError> {
    let mut list = Vec::new(alloc);
    for point in points {
        push(&mut list, Value::from(point.0))?;
    }
    Ok(Value::Array(list))
}

fn json_of_ranges(alloc: Global, ranges: &[LostRange]) -> Result<Value, AllocError> {
    let mut list = Vec::new(alloc);
    for range in ranges {
        push(&mut list, two_of(alloc, range.to.0, range.version.0)?)?;
    }
    Ok(Value::Array(list))
}

fn json_of_found(alloc: Global, found: &Found) -> Result<Value, AllocError> {
    match found {
        Found::NoStore => Ok(Value::Null),
        Found::Damaged(damage) => json_of_damage(alloc, damage),
        Found::Store(store) => json_of_store(alloc, store),
    }
}

fn json_of_damage(alloc: Global, damage: &DamageLook) -> Result<Value, AllocError> {
    let mut object = object_of(alloc, &[("place", damage.place)])?;
    put_text(alloc, &mut object, "damaged", damage.part.name())?;
    let bytes = digits_of(alloc, &damage.bytes)?;
    put_text(alloc, &mut object, "bytes", bytes.as_str())?;
    Ok(Value::Object(object))
}

/// Each byte as two digits.
fn digits_of(alloc: Global, bytes: &[u8]) -> Result<String, AllocError> {
    let mut digits = String::new(alloc);
    for byte in bytes {
        write!(digits, "{byte:02x}")?;
    }
    Ok(digits)
}

fn json_of_store(alloc: Global, store: &StoreLook) -> Result<Value, AllocError> {
    let mut object = Map::new(alloc);
    put(
        &mut object,
        alloc,
        "uses",
        json_of_uses(alloc, &store.uses)?,
    )?;
    let buckets = json_of_numbers(alloc, &store.index.buckets)?;
    put(&mut object, alloc, "buckets_by_entries", buckets)?;
    let lost = json_of_ranges(alloc, store.opened.lost.as_slice())?;
    put(&mut object, alloc, "lost_in_hand", lost)?;
    put(
        &mut object,
        alloc,
        "pages",
        json_of_pages(alloc, &store.pages)?,
    )?;
    Ok(Value::Object(object))
}

fn json_of_uses(alloc: Global, uses: &Uses) -> Result<Value, AllocError> {
    let mut object = Map::new(alloc);
    put_capacity(alloc, &mut object, "entries", uses.entries)?;
    put_capacity(alloc, &mut object, "records", uses.records)?;
    put_capacity(alloc, &mut object, "commits", uses.commits)?;
    put_capacity(alloc, &mut object, "sessions", uses.sessions)?;
    Ok(Value::Object(object))
}

fn put_capacity(
    alloc: Global,
    object: &mut Map<String, Value>,
    name: &str,
    capacity: Capacity,
) -> Result<(), AllocError> {
    let numbers = [("used", capacity.used), ("most", capacity.most)];
    put(
        object,
        alloc,
        name,
        Value::Object(object_of(alloc, &numbers)?),
    )
}

fn json_of_numbers(alloc: Global, numbers: &[u64]) -> Result<Value, AllocError> {
    let mut list = Vec::new(alloc);
    for number in numbers {
        push(&mut list, Value::from(*number))?;
    }
    Ok(Value::Array(list))
}

fn json_of_pages(alloc: Global, pages: &[PageLook]) -> Result<Value, AllocError> {
    let mut list = Vec::new(alloc);
    for page in pages {
        push(&mut list, json_of_page(alloc, page)?)?;
    }
    Ok(Value::Array(list))
}

fn json_of_page(alloc: Global, page: &PageLook) -> Result<Value, AllocError> {
    let numbers = [
        ("from", page.first.0),
        ("to", page.end.0),
        ("valid", page.valid),
        ("invalid", page.invalid),
        ("lost", page.lost),
        ("newer", page.newer),
        ("none", page.no_record),
    ];
    Ok(Value::Object(object_of(alloc, &numbers)?))
}

fn json_of_pairs(alloc: Global, pairs: &Option<Vec<(Key, Word)>>) -> Result<Value, AllocError> {
    let Some(pairs) = pairs else {
        return Ok(Value::Null);
    };
    let mut list = Vec::new(alloc);
    for (key, value) in pairs {
        push(&mut list, two_of(alloc, key.0, value.0)?)?;
    }
    Ok(Value::Array(list))
}
