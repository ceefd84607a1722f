// A file up to its first step: its length, version, kind and parameters, codes 1 to 5.
ghost use Rattle.std.specs.Prelude.{◌≡◌};
ghost use Rattle.machine.specs.Refusals.{number};
ghost use Rattle.schedule.specs.Front.{fault_code, fault_place, opened_of, flat_front, lock_front, flag_front, kind_front};

use super::kinds::Kind;
use super::limits;
use super::steps::Params;
use machine::refusal::Refusal;

// Why a file is no schedule.
#[derive(Clone, Copy)]
pub enum Fault {
    Length,
    Version,
    Body,
    Kind,
    Parameter,
    Step { index: usize },
    Surplus,
}

impl Fault {
    pub fn refusal(self) -> Refusal
        ensures { number result ≡ fault_code self }
    {
        match self {
            Fault::Length => Refusal::WrongLength,
            Fault::Version => Refusal::Version,
            Fault::Body => Refusal::Body,
            Fault::Kind => Refusal::Kind,
            Fault::Parameter => Refusal::Parameter,
            Fault::Step { .. } => Refusal::Malformed,
            Fault::Surplus => Refusal::Surplus,
        }
    }

    pub fn place(self) -> usize
        ensures { result ≡ fault_place self }
    {
        match self {
            Fault::Step { index } => index,
            Fault::Surplus => limits::STEPS,
            _ => 0,
        }
    }
}

// What stands in front of a file's steps: its parameters, and the place of its first step.
#[derive(Clone, Copy)]
pub struct Opened {
    pub params: Params,
    pub from: usize,
}

pub const VERSION: u8 = 1;
// version, two bytes of length, kind
pub const LEAST: usize = 4;

pub fn front(file: &[u8]) -> Result<Opened, Fault>
    ensures { result ≡ opened_of file.now }
{
    if file.len() < LEAST {
        return Err(Fault::Length);
    }
    let body = file.len() - 3;
    let length: u16 = rows::get(file, 1);
    if usize::from(length) != body {
        return Err(Fault::Length);
    }
    if file[0] != VERSION {
        return Err(Fault::Version);
    }
    if limits::BODY < body {
        return Err(Fault::Body);
    }
    of_kind(file[3], file)
}

// A kind's parameters, behind its byte.
fn of_kind(kind: u8, file: &[u8]) -> Result<Opened, Fault>
    ensures { result ≡ kind_front kind file.now }
{
    match Kind::try_from(kind) {
        Ok(Kind::Flat) => flat(file),
        Ok(Kind::Lock) => lock(file),
        Ok(Kind::Counting) => Ok(Opened {
            params: Params::Counting,
            from: LEAST,
        }),
        Ok(Kind::Flag) => flag(file),
        Err(_) => Err(Fault::Kind),
    }
}

// Clients, up to their limit.
#[tactic(auto, using(std::proofs::lemmas::Bool::Decides::nat_tests))]
fn flat(file: &[u8]) -> Result<Opened, Fault>
    ensures { result ≡ flat_front file.now }
{
    if file.len() < 5 {
        return Err(Fault::Parameter);
    }
    let clients = file[4];
    if limits::CLIENTS < usize::from(clients) {
        return Err(Fault::Parameter);
    }
    Ok(Opened {
        params: Params::Flat { clients },
        from: 5,
    })
}

// A width, from 1 up to its limit, and the initial record.
#[tactic(auto, using(std::proofs::lemmas::Bool::Decides::nat_tests))]
fn lock(file: &[u8]) -> Result<Opened, Fault>
    ensures { result ≡ lock_front file.now }
{
    if file.len() < 9 {
        return Err(Fault::Parameter);
    }
    let width = file[4];
    if width == 0 {
        return Err(Fault::Parameter);
    }
    if limits::WIDTH < usize::from(width) {
        return Err(Fault::Parameter);
    }
    let t = rows::get(file, 5);
    Ok(Opened {
        params: Params::Lock { width, t },
        from: 9,
    })
}

// Threads, from 1 up to their limit, and the value, 0 or 1.
#[tactic(auto, using(std::proofs::lemmas::Bool::Decides::nat_tests))]
fn flag(file: &[u8]) -> Result<Opened, Fault>
    ensures { result ≡ flag_front file.now }
{
    if file.len() < 6 {
        return Err(Fault::Parameter);
    }
    let threads = file[4];
    if threads == 0 {
        return Err(Fault::Parameter);
    }
    if limits::THREADS < usize::from(threads) {
        return Err(Fault::Parameter);
    }
    let value = file[5];
    if 1 < value {
        return Err(Fault::Parameter);
    }
    Ok(Opened {
        params: Params::Flag {
            threads,
            value: value == 1,
        },
        from: 6,
    })
}
