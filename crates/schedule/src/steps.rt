// The steps of each kind under the names that the source gives its transitions, and the parameters of a file.
#[derive(Clone, Copy)]
pub enum FlatStep {
    ClientSend { j: u8, rid: u32, req: u32 },
    ClientRecv { j: u8 },
    CombinerRecv,
    CombinerSkip,
    CombinerGoToResponding,
    CombinerSend { rid: u32, resp: u32 },
    CombinerSendSkip,
    CombinerGoToCollecting,
}

#[derive(Clone, Copy)]
pub enum LockStep {
    ExcStart,
    ExcCheckCount,
    ExcFinish,
    ExcRelease { t: u32 },
    SharedStart { r: u8 },
    SharedFinish { r: u8 },
    SharedRelease { r: u8, t: u32 },
}

#[derive(Clone, Copy)]
pub enum CountingStep {
    WriteableToReadable { t: u32 },
    ReadableToWriteable,
    NewRef,
    DeleteRef { t: u32 },
}

#[derive(Clone, Copy)]
pub enum FlagStep {
    Begin { k: u8 },
    Move { k: u8 },
    Read { k: u8 },
}

// A step of any kind.
#[derive(Clone, Copy)]
pub enum Step {
    Flat(FlatStep),
    Lock(LockStep),
    Counting(CountingStep),
    Flag(FlagStep),
}

// What the front of a file asks for.
#[derive(Clone, Copy)]
pub enum Params {
    Flat { clients: u8 },
    Lock { width: u8, t: u32 },
    Counting,
    Flag { threads: u8, value: bool },
}
