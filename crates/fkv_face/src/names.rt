//! Names of refusals by number.
ghost use Rattle.std.specs.Prelude.{◌≡◌, ◌++◌};
ghost use Rattle.fkv_face.specs.Names as says;

/// The name of the refusal of this number, empty where the number is none's.
fn name_of(number: u32) -> &'static [u8]
    ensures { result.now ≡ says.name_told number }
{
    match number {
        1 => b"BadShape",
        2 => b"ValueReserved",
        3 => b"PendingFull",
        4 => b"IndexFull",
        5 => b"LogFull",
        6 => b"VersionsSpent",
        7 => b"SerialsSpent",
        8 => b"EpochsSpent",
        9 => b"DrainFull",
        10 => b"CommitRunning",
        11 => b"PendingLeft",
        12 => b"Asleep",
        13 => b"Broken",
        14 => b"Device",
        15 => b"NotAStore",
        16 => b"Damaged",
        17 => b"Script",
        18 => b"Memory",
        19 => b"NoSession",
        20 => b"Awake",
        21 => b"LostFull",
        22 => b"HandleOut",
        23 => b"HandleTaken",
        24 => b"RoomSmall",
        26 => b"NoMerge",
        _ => b"",
    }
}

/// Writes the name of the refusal of this number, as much of it as there is room for, and answers its length: 0 where the number is none's.
#[unsafe(no_mangle)]
pub extern "C" fn fkv_fault_name(number: u32, into: &mut [u8]) -> usize
    ensures length { result ≡ says.length (says.name_told number) }
    ensures name { into.new ≡ says.take (says.length into.old) (says.name_told number) ++ says.drop (says.length (says.name_told number)) into.old }
{
    let name = name_of(number);
    let count = name.len().min(into.len());
    let (front, _) = into.split_at_mut(count);
    front.copy_from_slice(&name[..count]);
    name.len()
}
