ghost use Rattle.std.specs.Prelude.{◌≡◌, ◌↔◌, Some, IfOk, OnErr, OnOk, IsTrue, string_bytes, refl, ⊤};
ghost use Rattle.vio_io.specs.Causes.{Fails, next_count};
ghost use Rattle.vio_io.specs.Given.{next_given};
ghost use Rattle.flat_store.specs.Hosts.{one_image};
ghost use Rattle.flat_store.specs.ListHostState.{ListHostState, after_giving, after_none, disk_plan, refuses};

use crate::MemStore;
use std::alloc::Global;
use std::marker::Model;
use vio_io::{AttachFault, Host, NoMemory};

/// A host with one image in memory under one name. `-` gives zeros whose calls never fail. Another name is a fault,
/// and so is any where the host was made to fail.
#[derive(Drop)]
pub struct ListHost {
    name: String,
    image: Vec<u8>,
    failing: Vec<u64>,
    attach_fails: bool,
    faults: u64,
    given: u64,
}

impl Model for ListHost {
    ghost Value = { ListHostState };

    ghost view = { λ h. record {
      name = string_bytes h.name;
      image = h.image.items;
      failing = h.failing.items;
      attach_fails = h.attach_fails;
      faults = h.faults;
      given = h.given;
    } };
}

impl ListHost {
    /// A host with these bytes under this name, whose disk fails the calls whose numbers, counted from 0, are in
    /// `failing`.
    pub fn new(
        alloc: Global,
        name: &str,
        bytes: &[u8],
        failing: &[u64],
        attach_fails: bool,
    ) -> Result<Self, NoMemory>
        ensures { IfOk result (λ h. h ≡ record {
          name = name.now;
          image = bytes.now;
          failing = failing.now;
          attach_fails = attach_fails;
          faults = 0;
          given = 0;
        }) }
    {
        Ok(ListHost {
            name: String::from_str(alloc, name)?,
            image: Vec::from_slice(alloc, bytes)?,
            failing: Vec::from_slice(alloc, failing)?,
            attach_fails,
            faults: 0,
            given: 0,
        })
    }

    /// How often it refused to attach an image.
    pub fn faults(&self) -> u64
        ensures { result ≡ self.now.faults }
    {
        self.faults
    }

    fn fail(&mut self) -> AttachFault
        ensures fault { result ≡ AttachFault.Failed }
        ensures state { self.new ≡ record self.old { faults = next_count self.old.faults } }
        ensures faults { Fails ⊤ self.old.faults self.new.faults }
    {
        self.faults = self.faults.saturating_add(1);
        AttachFault::Failed
    }

    fn give(&mut self, disk: MemStore) -> MemStore
        ensures disk { result ≡ disk }
        ensures state { self.new ≡ after_giving self.old }
    {
        self.given = self.given.wrapping_add(1);
        disk
    }
}

impl Host for ListHost {
    type Disk = MemStore;

    ghost gives = { λ h name least. one_image h.name h.image name least };

    ghost faults = { λ h. h.faults };

    ghost given = { λ h. h.given };

    ghost dash = { λ h least. refl };

    fn attach(&mut self, alloc: Global, name: &str, least: u64) -> Result<MemStore, AttachFault>
        ensures gives { IfOk result (λ disk. Some disk.bytes ≡ one_image self.old.name self.old.image name.now least) }
        ensures fresh { IfOk result (λ disk. disk.plan.faults ≡ 0) }
        ensures calls { IfOk result (λ disk. disk.plan.calls ≡ 0) }
        ensures flushes { IfOk result (λ disk. disk.flushes ≡ 0) }
        ensures writes { IfOk result (λ disk. disk.writes ≡ 0) }
        ensures given { OnOk result (self.new.given ≡ next_given self.old.given) }
        ensures none { OnErr result (self.new.given ≡ self.old.given) }
        ensures faults { Fails (result ≡ Err AttachFault.Failed) self.old.faults self.new.faults }

        ensures refuses { result ≡ Err AttachFault.Failed ↔ IsTrue (refuses self.old name.now) }
        ensures gave { OnOk result (self.new ≡ after_giving self.old) }
        ensures gave_none { OnErr result (self.new ≡ after_none self.old name.now) }
        ensures plan { IfOk result (λ disk. disk.plan ≡ disk_plan self.old name.now) }
    {
        if self.attach_fails {
            return Err(self.fail());
        }
        if name == "-" {
            let zeros = MemStore::zeros(alloc, least as usize)?;
            return Ok(self.give(zeros));
        }
        if name == self.name.as_str() {
            let disk = MemStore::new(alloc, &self.image, &self.failing)?;
            return Ok(self.give(disk));
        }
        Err(self.fail())
    }
}
