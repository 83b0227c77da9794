// The devices of a site: 32 nodes and the prefix.
ghost use Rattle.std.specs.Prelude.{◌≡◌, ◌≤◌, ◌<◌, ℕ, List, length, vec_len};
ghost use Rattle.std.specs.Borrow.{sem};
ghost use Rattle.node_device.specs.DeviceState.{IsDeviceName, used_of};
ghost use Rattle.node_device.specs.Calls.{Sizes, Reads, Writes, Syncs, Removes, Lists, Crashes, Wipes};
ghost use Rattle.node_device.specs.Rack.{device_at, states_of, OnlyAt};
ghost use Rattle.node_device.specs.Lending.{LendsDevice};

use crate::{DevError, Device};
use scr_base::Bytes;
use std::marker::Model;

/// The devices of a site by their places: 0 to 31 are the nodes, and 32 is the prefix, which all nodes reach.
#[derive(Drop)]
pub struct Bay<D> {
    nodes: Vec<D>,
    prefix: D,
}

/// What a whole run leaves: its status, and its devices.
#[derive(Drop)]
pub struct Ran<D> {
    pub status: u8,
    pub bay: Bay<D>,
}

impl<D> Model for Bay<D> {
    ghost use Rattle.std.specs.Prelude.{◌≡◌, length};
    ghost use Rattle.node_device.specs.Rack.{Rack};

    ghost Value = { Rack D };

    ghost view = { λ b. record { nodes = b.nodes.items; prefix = b.prefix } };

    ghost invariant = { λ b. length b.nodes.items ≡ 32 };
}

impl<D> Bay<D> {
    pub fn new(nodes: Vec<D>, prefix: D) -> Bay<D>
        requires { vec_len nodes ≡ 32 }
        ensures nodes { result.nodes ≡ nodes.items }
        ensures prefix { result.prefix ≡ prefix }
    {
        Bay { nodes, prefix }
    }

    /// The device at a place.
    pub fn device(&mut self, node: u8) -> &mut D
        requires { node ≤ 32 }
        ensures* writes_back { sem 𝓛 (LendsDevice D.row self.entry node result) }
        ensures value { result.now ≡ device_at self.old node }
        ensures full { length self.old.nodes ≡ 32 }
    {
        if node == 32 {
            &mut self.prefix
        } else {
            &mut self.nodes[node as usize]
        }
    }

    fn at(&self, place: u8) -> &D
        requires { place ≤ 32 }
        ensures value { result.now ≡ device_at self.now place }
        ensures full { length self.now.nodes ≡ 32 }
    {
        if place == 32 {
            &self.prefix
        } else {
            &self.nodes[place as usize]
        }
    }

    /// The nodes and the prefix.
    pub fn apart(self) -> (Vec<D>, D)
        ensures nodes { result.0.items ≡ self.nodes }
        ensures full { length self.nodes ≡ 32 }
        ensures prefix { result.1 ≡ self.prefix }
    {
        (self.nodes, self.prefix)
    }
}

/// The calls of a device, each at one place.
impl<D: Device> Bay<D> {
    pub fn size_at(&mut self, place: u8, name: &[u8]) -> Result<u64, DevError>
        requires place { place ≤ 32 }
        requires name { IsDeviceName name.now }
        ensures { OnlyAt place (Sizes name.now result) (states_of D.state self.old) (states_of D.state self.new) }
    {
        self.device(place).size(name)
    }

    pub fn read_at(
        &mut self,
        place: u8,
        name: &[u8],
        at: u64,
        into: &mut [u8],
    ) -> Result<(), DevError>
        requires place { place ≤ 32 }
        requires name { IsDeviceName name.now }
        ensures { OnlyAt place (Reads name.now at (length into.old) into.new result) (states_of D.state self.old) (states_of D.state self.new) }
    {
        self.device(place).read(name, at, into)
    }

    pub fn write_at(
        &mut self,
        place: u8,
        name: &[u8],
        at: u64,
        bytes: &[u8],
    ) -> Result<(), DevError>
        requires place { place ≤ 32 }
        requires name { IsDeviceName name.now }
        ensures { OnlyAt place (Writes name.now at bytes.now result) (states_of D.state self.old) (states_of D.state self.new) }
    {
        self.device(place).write(name, at, bytes)
    }

    pub fn sync_at(&mut self, place: u8) -> Result<(), DevError>
        requires { place ≤ 32 }
        ensures { OnlyAt place (Syncs result) (states_of D.state self.old) (states_of D.state self.new) }
    {
        self.device(place).sync()
    }

    pub fn remove_at(&mut self, place: u8, name: &[u8]) -> Result<(), DevError>
        requires place { place ≤ 32 }
        requires name { IsDeviceName name.now }
        ensures { OnlyAt place (Removes name.now result) (states_of D.state self.old) (states_of D.state self.new) }
    {
        self.device(place).remove(name)
    }

    pub fn names_at(&mut self, place: u8) -> Result<Vec<Bytes>, DevError>
        requires { place ≤ 32 }
        ensures { OnlyAt place (Lists result) (states_of D.state self.old) (states_of D.state self.new) }
    {
        self.device(place).names()
    }

    pub fn used_at(&self, place: u8) -> u64
        requires { place ≤ 32 }
        ensures { result ≡ used_of (states_of D.state self.now place) }
    {
        self.at(place).used()
    }

    pub fn capacity_at(&self, place: u8) -> u64
        requires { place ≤ 32 }
        ensures { result ≡ (states_of D.state self.now place).capacity }
    {
        self.at(place).capacity()
    }

    pub fn faults_at(&self, place: u8) -> u64
        requires { place ≤ 32 }
        ensures { result ≡ (states_of D.state self.now place).faults }
    {
        self.at(place).faults()
    }

    /// Stops every device, each with this number.
    pub fn stop(&mut self, pick: u8)
        requires { pick ≤ 3 }
        ensures picked { (place : ℕ) → place ≤ 32 → D.leaves pick (states_of D.state self.old place) (states_of D.state self.new place) }
        ensures each { (place : ℕ) → Crashes (states_of D.state self.old place) (states_of D.state self.new place) }
    {
        for i in 0..self.nodes.len() {
            self.nodes[i].crash(pick);
        }
        self.prefix.crash(pick);
    }

    /// Loses a node: its device is empty, and stable so.
    pub fn lose(&mut self, node: u8)
        requires { node < 32 }
        ensures { OnlyAt node Wipes (states_of D.state self.old) (states_of D.state self.new) }
    {
        self.device(node).wipe();
    }
}
