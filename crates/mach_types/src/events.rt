//! Events: who may do what, and how the log says so.

ghost use Rattle.std.specs.Prelude.{◌≡◌, Bool, Option};
ghost use Rattle.mach_types.specs.Events.{begun_by, choice_for, choice_of, is_instruction, is_preempt, is_run, kind_of, maker_of, nature_of};

/// A hart, by its number from 0 on. The RISC-V manual's word for a hardware thread; a processor in rseq(2).
#[derive(Clone, Copy, PartialEq, Eq, Drop)]
pub struct Hart(pub u8);

impl Hart {
    ghost use Rattle.mach_types.specs.Kernel.Scheduling.{has_hart};

    /// Whether the hart is in a set of harts, whose bit h stands for hart h.
    pub fn is_in(self, set: u8) -> bool
        ensures { result ≡ has_hart set self.0 }
    {
        self.0 < 8 && (set >> self.0) % 2 == 1
    }
}

/// A thread, by its number from 1 on. Numbers aren't used again.
#[derive(Clone, Copy, PartialEq, Eq, Drop)]
pub struct Tid(pub u32);

/// The kinds of event that a hart can make.
#[derive(Clone, Copy, PartialEq, Eq, Drop)]
pub enum Kind {
    /// One instruction, its fault, or one system call.
    Exec,
    /// The hart's oldest waiting store enters memory.
    Drain,
    /// The hart acknowledges the barrier requests that wait at it.
    Take,
    /// A barrier call returns.
    Done,
    /// The running thread leaves the hart.
    Preempt,
    /// A ready thread begins to run on the hart.
    Run,
    /// A signal is delivered to the running thread.
    Signal,
}

/// Who makes an event.
#[derive(Clone, Copy, Drop)]
pub enum Maker {
    /// The thread that runs on the hart: it executes an instruction, or makes its fault or its call.
    Thread,
    /// The store buffer of the hart: its oldest store enters memory.
    Buffer,
    /// The kernel.
    Kernel,
}

/// Where an event leaves its thread.
#[derive(Clone, Copy, Drop)]
pub enum Movement {
    /// Where it is.
    Stays,
    /// On no hart: it ran on the hart before.
    Leaves,
    /// On the hart, where it begins to run.
    Begins,
}

/// What interrupts the thread of an event, so that the restartable sequence in which it is doesn't go on
/// (rseq(2)).
#[derive(Clone, Copy, Drop)]
pub enum Interruption {
    /// Nothing.
    Never,
    /// A request that it takes, where one asks for a restart (membarrier(2)).
    Requested,
    /// That it begins to run, and so has left its hart before.
    Scheduled,
    /// A signal that is delivered to it.
    Signalled,
}

/// What an event is to the barriers of membarrier(2).
#[derive(Clone, Copy, Drop)]
pub enum BarrierPart {
    /// Nothing.
    Apart,
    /// Its hart takes the requests of barriers.
    Takes,
    /// A barrier returns.
    Returns,
}

/// What an event of some kind is to those who read a log.
#[derive(Clone, Copy, Drop)]
pub struct Nature {
    /// Who makes it.
    pub maker: Maker,
    /// Where it leaves its thread.
    pub movement: Movement,
    /// What interrupts its thread.
    pub interruption: Interruption,
    /// What it is to barriers.
    pub barriers: BarrierPart,
}

impl Kind {
    /// What an event of this kind is.
    #[inline]
    pub fn nature(self) -> Nature
        ensures { result ≡ nature_of self }
    {
        Nature {
            maker: self.maker(),
            movement: self.movement(),
            interruption: self.interruption(),
            barriers: self.part_in_barriers(),
        }
    }

    /// Who makes it.
    #[inline]
    fn maker(self) -> Maker
        ensures { result ≡ (nature_of self).maker }
    {
        match self {
            Kind::Exec => Maker::Thread,
            Kind::Drain => Maker::Buffer,
            Kind::Take | Kind::Done | Kind::Preempt | Kind::Run | Kind::Signal => Maker::Kernel,
        }
    }

    /// Where it leaves its thread.
    #[inline]
    fn movement(self) -> Movement
        ensures { result ≡ (nature_of self).movement }
    {
        match self {
            Kind::Preempt => Movement::Leaves,
            Kind::Run => Movement::Begins,
            Kind::Exec | Kind::Drain | Kind::Take | Kind::Done | Kind::Signal => Movement::Stays,
        }
    }

    /// What interrupts its thread.
    #[inline]
    fn interruption(self) -> Interruption
        ensures { result ≡ (nature_of self).interruption }
    {
        match self {
            Kind::Take => Interruption::Requested,
            Kind::Run => Interruption::Scheduled,
            Kind::Signal => Interruption::Signalled,
            Kind::Exec | Kind::Drain | Kind::Done | Kind::Preempt => Interruption::Never,
        }
    }

    /// What it is to barriers.
    #[inline]
    fn part_in_barriers(self) -> BarrierPart
        ensures { result ≡ (nature_of self).barriers }
    {
        match self {
            Kind::Take => BarrierPart::Takes,
            Kind::Done => BarrierPart::Returns,
            Kind::Exec | Kind::Drain | Kind::Preempt | Kind::Run | Kind::Signal => {
                BarrierPart::Apart
            }
        }
    }

    /// Whether it is an instruction, its fault or its call.
    #[inline]
    pub fn is_instruction(self) -> bool
        ensures { result ≡ is_instruction self }
    {
        matches!(self.maker(), Maker::Thread)
    }

    /// Whether a thread leaves its hart by it.
    #[inline]
    pub fn is_preempt(self) -> bool
        ensures { result ≡ is_preempt self }
    {
        matches!(self.movement(), Movement::Leaves)
    }

    /// Whether a thread begins to run by it: its choice names that thread.
    #[inline]
    pub fn is_run(self) -> bool
        ensures { result ≡ is_run self }
    {
        matches!(self.movement(), Movement::Begins)
    }

    /// The choice of this kind; where it names a thread, this one.
    pub fn choice(self, tid: Tid) -> Choice
        ensures { result ≡ choice_for self tid }
    {
        match self {
            Kind::Exec => Choice::Exec,
            Kind::Drain => Choice::Drain,
            Kind::Take => Choice::Take,
            Kind::Done => Choice::Done,
            Kind::Preempt => Choice::Preempt,
            Kind::Run => Choice::Run(tid),
            Kind::Signal => Choice::Signal,
        }
    }
}

/// What a hart is asked to do: a kind of event, and for `Run` the thread.
#[derive(Clone, Copy, PartialEq, Eq, Drop)]
pub enum Choice {
    /// See [`Kind::Exec`].
    Exec,
    /// See [`Kind::Drain`].
    Drain,
    /// See [`Kind::Take`].
    Take,
    /// See [`Kind::Done`].
    Done,
    /// See [`Kind::Preempt`].
    Preempt,
    /// See [`Kind::Run`]: this thread begins to run.
    Run(Tid),
    /// See [`Kind::Signal`].
    Signal,
}

impl Choice {
    /// The kind of event that is asked for.
    pub fn kind(self) -> Kind
        ensures { result ≡ kind_of self }
    {
        match self {
            Choice::Exec => Kind::Exec,
            Choice::Drain => Kind::Drain,
            Choice::Take => Kind::Take,
            Choice::Done => Kind::Done,
            Choice::Preempt => Kind::Preempt,
            Choice::Run(_) => Kind::Run,
            Choice::Signal => Kind::Signal,
        }
    }

    /// Who makes the event.
    #[inline]
    pub fn maker(self) -> Maker
        ensures { result ≡ maker_of self }
    {
        self.kind().maker()
    }

    /// The thread that it names: the one that is to begin to run. None where it names none.
    #[inline]
    pub fn begun(self) -> Option<Tid>
        ensures { result ≡ begun_by self }
    {
        match self {
            Choice::Run(tid) => Some(tid),
            _ => None,
        }
    }
}

/// The choices that name no thread.
pub const OWN_CHOICES: [Choice; 6] = [
    Choice::Exec,
    Choice::Drain,
    Choice::Take,
    Choice::Done,
    Choice::Preempt,
    Choice::Signal,
];

/// One line of the log: an event, the hart that made it, and the running thread and its pc before it.
///
/// For `Run`, `tid` and `pc` are those of the thread that starts; on a hart without a thread they are 0.
#[derive(Clone, Copy, PartialEq, Eq, Drop)]
pub struct Entry {
    /// The hart that made the event.
    pub hart: Hart,
    /// What kind of event it was.
    pub kind: Kind,
    /// The running thread before the event, or the thread that starts.
    pub tid: Tid,
    /// The pc of that thread before the event.
    pub pc: u64,
}

impl Entry {
    /// The choice that an entry answers.
    pub fn choice(&self) -> Choice
        ensures { result ≡ choice_of self.now }
    {
        self.kind.choice(self.tid)
    }
}

/// The condition of an event that fails.
#[derive(Clone, Copy, PartialEq, Eq, Drop)]
pub enum Why {
    /// The machine has no such hart.
    NoHart,
    /// No thread runs on the hart.
    Idle,
    /// The hart's thread waits in a barrier.
    InBarrier,
    /// A store of the hart waits, and the event needs an empty store buffer.
    Waiting,
    /// The store buffer is full, and the instruction is a plain store.
    FullBuffer,
    /// The call would remove or protect a page that holds a byte of a waiting store.
    Others,
    /// No store waits.
    NoStore,
    /// No barrier request is pending at the hart.
    NoRequest,
    /// The hart's thread doesn't wait in a barrier.
    NotInBarrier,
    /// A target of the barrier hasn't acknowledged.
    Targets,
    /// A thread runs on the hart.
    Busy,
    /// The thread isn't ready.
    NotReady,
    /// The thread's affinity lacks the hart.
    NotAllowed,
    /// No signal is deliverable.
    NoSignal,
}

/// What an attempt to go on came to.
#[derive(Clone, Copy, PartialEq, Eq, Drop)]
pub enum Advance {
    /// The hart made this event.
    Made(Entry),
    /// The hart has nothing to do now.
    NoneNow,
    /// The run has ended.
    Ended,
}

/// What a scheduler sees of one hart and of the threads that may run on it.
#[derive(Clone, Copy, Drop)]
pub struct Sight {
    /// No thread runs on the hart.
    pub idle: bool,
    /// The first ready thread whose affinity has the hart.
    pub first_ready: Option<Tid>,
    /// The hart's thread waits in a barrier.
    pub in_barrier: bool,
    /// All targets of that barrier have acknowledged.
    pub all_taken: bool,
    /// A barrier request is pending at the hart.
    pub requested: bool,
    /// How many stores wait.
    pub stores: u8,
    /// A signal is deliverable to the hart's thread.
    pub deliverable: bool,
    /// The event `exec` is allowed.
    pub exec_enabled: bool,
    /// The next instruction touches registers alone, and doesn't fault.
    pub local: bool,
    /// How many instructions the hart executed since a thread last began to run on it.
    pub ran: u32,
    /// How many more register-only instructions may follow without a new choice.
    pub credit: u8,
}
