//! Where a new store comes to lie: it has no name there until it is whole.
ghost use Rattle.std.specs.Prelude.{◌≡◌, Option, Some};
ghost use Rattle.fkv_renew.specs.Said as said;

use fkv_disk::Device;
use fkv_files::{StorePlaces, Trouble};

/// A place that names a device once, when it is whole.
pub(crate) trait Place {
    type Device: Device;

    /// The device that has its name here, or none.
    ghost named: { Self → Option Self.Device };

    /// This device, as it now is, has got its name here.
    ghost has_name: { Self → Self.Device → Type 0 };

    /// Makes a device that has no name yet.
    fn make(&self) -> Result<Self::Device, Trouble>;

    /// Gives a device its name. It isn't written from then on.
    fn name(&mut self, device: Self::Device) -> Result<(), Trouble>
        ensures ok { said.OnOk result (named self.new ≡ Some device) }
        ensures has_name { said.OnOk result (has_name self.old device) }
        ensures err { said.OnErr result (named self.new ≡ named self.old) };

    /// Takes a device back that gets no name, and leaves nothing of it.
    fn discard(&self, device: Self::Device);
}

/// A file of a folder, with the permissions of another file.
#[derive(Drop)]
pub(crate) struct NewFile<'a, S: StorePlaces> {
    places: &'a S,
    /// The name that it has until it is whole.
    first: &'a str,
    name: &'a str,
    /// The file whose permissions it has.
    like: &'a str,
    /// It is kept with its lock until the program ends.
    named: Option<S::Disk>,
}

impl<'a, S: StorePlaces> NewFile<'a, S> {
    /// A file that isn't made yet.
    pub(crate) fn new(places: &'a S, first: &'a str, name: &'a str, like: &'a str) -> NewFile<'a, S>
        ensures places { result.places.now ≡ places.now }
        ensures name { result.name.now ≡ name.now }
    {
        NewFile {
            places,
            first,
            name,
            like,
            named: None,
        }
    }
}

impl<S: StorePlaces> Place for NewFile<'_, S> {
    type Device = S::Disk;

    ghost named = { λ file. file.named };

    ghost has_name = { λ file. S.is_named file.places.now file.name.now };

    fn make(&self) -> Result<S::Disk, Trouble> {
        self.places.make_new(self.first, self.like)
    }

    fn name(&mut self, device: S::Disk) -> Result<(), Trouble> {
        self.places.give_name(&device, self.first, self.name)?;
        self.named = Some(device);
        Ok(())
    }

    fn discard(&self, _device: S::Disk) {
        self.places.discard(self.first);
    }
}
