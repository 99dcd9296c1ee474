// What an opener was asked for, and how often that failed. It touches nothing outside.
ghost use Rattle.std.specs.Prelude.{◌≡◌, ◌≤◌};
ghost use Rattle.xr_io.specs.declared.Which.{Which};
ghost use Rattle.xr_io.specs.Asked.{open_faults_of, read_faults_of, taken_of, none_asked, after_opening, after_closing};

use crate::{Taken, Which};
use std::marker::Model;

/// What was asked for as one of the two.
#[derive(Drop)]
struct AskedFile<'n> {
    name: Option<&'n str>,
    is_open: bool,
    open_faults: u64,
    read_faults: u64,
    taken: Taken,
}

impl<'n> Model for AskedFile<'n> {
    ghost use Rattle.std.specs.Prelude.{option_map};
    ghost use Rattle.xr_io.specs.Asked.{AskedFile};

    ghost Value = { AskedFile };

    ghost view = { λ file. record {
      name = option_map (λ name. name.now) file.name;
      is_open = file.is_open;
      open_faults = file.open_faults;
      read_faults = file.read_faults;
      taken = file.taken;
    } };
}

impl<'n> AskedFile<'n> {
    ghost use Rattle.xr_io.specs.Asked.{unasked_file, opened_file, closed_file};

    fn new() -> AskedFile<'n>
        ensures { result ≡ unasked_file }
    {
        AskedFile {
            name: None,
            is_open: false,
            open_faults: 0,
            read_faults: 0,
            taken: Taken {
                count: 0,
                late: false,
            },
        }
    }

    fn open(&mut self, name: &'n str, failed: bool)
        ensures file { self.new ≡ opened_file self.old name.now failed }
        ensures later { self.old.open_faults ≤ self.new.open_faults }
    {
        self.name = Some(name);
        if failed {
            self.open_faults = self.open_faults.saturating_add(1);
        } else {
            self.is_open = true;
        }
    }

    fn close(&mut self, faults: u64, taken: Taken)
        ensures file { self.new ≡ closed_file self.old faults taken }
        ensures later { self.old.read_faults ≤ self.new.read_faults }
    {
        self.is_open = false;
        self.taken = taken;
        if faults > 0 {
            self.read_faults = self.read_faults.saturating_add(1);
        }
    }

    fn open_faults(&self) -> u64
        ensures { result ≡ self.now.open_faults }
    {
        self.open_faults
    }

    fn read_faults(&self) -> u64
        ensures { result ≡ self.now.read_faults }
    {
        self.read_faults
    }
}

/// What was asked for as each of the two.
#[derive(Drop)]
pub(crate) struct Asked<'n> {
    scenario: AskedFile<'n>,
    device: AskedFile<'n>,
}

impl<'n> Model for Asked<'n> {
    ghost use Rattle.xr_io.specs.Asked.{Asked};

    ghost Value = { Asked };

    ghost view = { λ both. record { scenario = both.scenario; device = both.device } };
}

impl<'n> Asked<'n> {
    /// Nothing was asked for.
    pub(crate) fn new() -> Asked<'n>
        ensures { result ≡ none_asked }
    {
        Asked {
            scenario: AskedFile::new(),
            device: AskedFile::new(),
        }
    }

    /// Keeps the name that is asked for, and counts where opening it failed.
    pub(crate) fn open(&mut self, which: Which, name: &'n str, failed: bool)
        ensures asked { self.new ≡ after_opening self.old which name.now failed }
        ensures later { open_faults_of self.old which ≤ open_faults_of self.new which }
    {
        match which {
            Which::Scenario => self.scenario.open(name, failed),
            Which::Device => self.device.open(name, failed),
        }
    }

    /// Keeps what was taken of a source that is closed, and counts it where it had a fault.
    pub(crate) fn close(&mut self, which: Which, faults: u64, taken: Taken)
        ensures asked { self.new ≡ after_closing self.old which faults taken }
        ensures later { (w : Which) → read_faults_of self.old w ≤ read_faults_of self.new w }
    {
        match which {
            Which::Scenario => self.scenario.close(faults, taken),
            Which::Device => self.device.close(faults, taken),
        }
    }

    /// How often opening this one failed.
    pub(crate) fn open_faults(&self, which: Which) -> u64
        ensures { result ≡ open_faults_of self.now which }
    {
        match which {
            Which::Scenario => self.scenario.open_faults(),
            Which::Device => self.device.open_faults(),
        }
    }

    /// What was taken of this one's closed source.
    pub(crate) fn taken(&self, which: Which) -> Taken
        ensures { result ≡ taken_of self.now which }
    {
        match which {
            Which::Scenario => self.scenario.taken,
            Which::Device => self.device.taken,
        }
    }

    /// How many closed sources of this one had a fault.
    pub(crate) fn read_faults(&self, which: Which) -> u64
        ensures { result ≡ read_faults_of self.now which }
    {
        match which {
            Which::Scenario => self.scenario.read_faults(),
            Which::Device => self.device.read_faults(),
        }
    }
}
