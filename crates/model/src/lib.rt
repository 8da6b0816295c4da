// The component model, a port of the types of the source's model.rs: identifiers, attributes, events, effects, states.
// Names are the source's.
#![tactic(auto)]

ghost use Rattle.std.specs.Prelude.{◌≡◌, ◌<◌};
ghost use Rattle.model.specs.Vocabulary.{id_of, region_of, plain_attrs, in_region, depending_on, named};

// Names one component. What it stands for is the board's affair.
#[derive(Clone, Copy, Debug, PartialEq, Eq)]
pub struct ComponentId(pub u8);

impl ComponentId {
    pub fn new(id: u8) -> Self
        ensures { result ≡ id_of id }
    {
        ComponentId(id)
    }

    pub fn get(self) -> u8
        ensures { result ≡ self.0 }
    {
        self.0 // the component's number
    }

    // Its number as a place in a table by id, which has 256 places.
    pub fn index(self) -> usize
        ensures { (result ≡ self.0) × (result < 256) }
    {
        usize::from(self.0)
    }
}

impl From<u8> for ComponentId {
    ghost from_gives = { λ id made. made ≡ id_of id };

    fn from(id: u8) -> Self {
        ComponentId::new(id)
    }
}

impl From<ComponentId> for u64 {
    ghost from_gives = { λ id number. number ≡ id.0 };

    fn from(id: ComponentId) -> Self {
        u64::from(id.0)
    }
}

// Names a recovery region. A type of its own, so that it is never taken for a component.
#[derive(Clone, Copy, Debug, PartialEq, Eq)]
pub struct RegionId(pub u8);

impl RegionId {
    pub fn new(id: u8) -> Self
        ensures { result ≡ region_of id }
    {
        RegionId(id)
    }

    pub fn get(self) -> u8
        ensures { result ≡ self.0 }
    {
        self.0 // the region's number
    }
}

impl From<u8> for RegionId {
    ghost from_gives = { λ id made. made ≡ region_of id };

    fn from(id: u8) -> Self {
        RegionId::new(id)
    }
}

#[derive(Clone, Copy, Debug, PartialEq, Eq)]
pub enum ComponentKind {
    Active,
    Passive,
}

#[derive(Clone, Copy, Debug, PartialEq, Eq)]
pub enum FailurePolicy {
    Required,
    Isolable,
    Cascading,
}

#[derive(Clone, Copy, Debug, PartialEq, Eq)]
pub struct ComponentAttrs {
    pub kind: ComponentKind,
    pub failure_policy: FailurePolicy,
    pub recovery_region: RegionId,
    pub depends_on: Option<ComponentId>,
}

impl ComponentAttrs {
    // Region 0 and no dependency, under every kind and policy.
    pub fn plain(kind: ComponentKind, failure_policy: FailurePolicy) -> Self
        ensures { result ≡ plain_attrs kind failure_policy }
    {
        ComponentAttrs {
            kind,
            failure_policy,
            recovery_region: RegionId(0),
            depends_on: None,
        }
    }

    // The six that follow are the source's names; each is a call of plain.
    pub fn active_required() -> Self
        ensures { result ≡ plain_attrs ComponentKind.Active FailurePolicy.Required }
    {
        ComponentAttrs::plain(ComponentKind::Active, FailurePolicy::Required)
    }

    pub fn passive_required() -> Self
        ensures { result ≡ plain_attrs ComponentKind.Passive FailurePolicy.Required }
    {
        ComponentAttrs::plain(ComponentKind::Passive, FailurePolicy::Required)
    }

    pub fn active_isolable() -> Self
        ensures { result ≡ plain_attrs ComponentKind.Active FailurePolicy.Isolable }
    {
        ComponentAttrs::plain(ComponentKind::Active, FailurePolicy::Isolable)
    }

    pub fn passive_isolable() -> Self
        ensures { result ≡ plain_attrs ComponentKind.Passive FailurePolicy.Isolable }
    {
        ComponentAttrs::plain(ComponentKind::Passive, FailurePolicy::Isolable)
    }

    pub fn active_cascading() -> Self
        ensures { result ≡ plain_attrs ComponentKind.Active FailurePolicy.Cascading }
    {
        ComponentAttrs::plain(ComponentKind::Active, FailurePolicy::Cascading)
    }

    pub fn passive_cascading() -> Self
        ensures { result ≡ plain_attrs ComponentKind.Passive FailurePolicy.Cascading }
    {
        ComponentAttrs::plain(ComponentKind::Passive, FailurePolicy::Cascading)
    }

    pub fn with_region(mut self, region: RegionId) -> Self
        ensures { result ≡ in_region region self }
    {
        self.recovery_region = region;
        self
    }

    pub fn with_depends_on(mut self, dependency: ComponentId) -> Self
        ensures { result ≡ depending_on dependency self }
    {
        self.depends_on = Some(dependency);
        self
    }
}

// What the board's power-on checks found.
#[derive(Clone, Copy, Debug, PartialEq, Eq)]
pub enum PowerOnResult {
    Provisioned,
    Unprovisioned,
    SelfVerificationFailed,
}

// Why a boot walk failed at a checkpoint.
#[derive(Clone, Copy, Debug, PartialEq, Eq)]
pub enum BootFailureKind {
    TimedOut,
    DeviceRetriable,
    DeviceFatal,
}

// Everything that the outside can tell the state machine. A checkpoint is a number, 0 to 65535.
#[derive(Clone, Copy, Debug, PartialEq, Eq)]
pub enum Event {
    PowerGood(PowerOnResult),
    VerificationPassed(ComponentId),
    VerificationFailed(ComponentId),
    ComponentReady(ComponentId),
    Booted(ComponentId),
    AttestationChallenge,
    UpdateRequest,
    UpdateVerified,
    UpdateRejected,
    BootConfirmed(ComponentId),
    CorruptionDetected(ComponentId),
    Restored(ComponentId),
    RecoveryUnavailable(ComponentId),
    RecoveryFailed,
    BootFailed {
        id: ComponentId,
        checkpoint: u16,
        kind: BootFailureKind,
    },
    Timeout(ComponentId),
    CommitTimeout,
    EffectFailed,
}

impl Event {
    // The component that the event names, or none.
    pub fn component_id(self) -> Option<ComponentId>
        ensures { result ≡ named self }
    {
        match self {
            Event::VerificationPassed(id)
            | Event::VerificationFailed(id)
            | Event::ComponentReady(id)
            | Event::Booted(id)
            | Event::BootConfirmed(id)
            | Event::CorruptionDetected(id)
            | Event::Restored(id)
            | Event::RecoveryUnavailable(id)
            | Event::BootFailed { id, .. }
            | Event::Timeout(id) => Some(id),
            Event::PowerGood(_)
            | Event::AttestationChallenge
            | Event::UpdateRequest
            | Event::UpdateVerified
            | Event::UpdateRejected
            | Event::RecoveryFailed
            | Event::CommitTimeout
            | Event::EffectFailed => None,
        }
    }
}

// Everything that the state machine can ask the outside to do, and Emit, which never leaves it.
#[derive(Clone, Copy, Debug, PartialEq, Eq)]
pub enum Effect {
    ReadFirmware(ComponentId),
    VerifyFirmware(ComponentId),
    ReleaseReset(ComponentId),
    AssertReset(ComponentId),
    SignAttestation,
    AuthenticateUpdate,
    StageUpdate,
    ActivateUpdate,
    DiscardStaged,
    CommitSvnFloor(ComponentId),
    RecoverComponent {
        id: ComponentId,
        attempt: u8,
    },
    ReportIsolated(ComponentId),
    ReportRecoveryFailed(ComponentId),
    ReportBootFailed {
        id: ComponentId,
        checkpoint: u16,
        kind: BootFailureKind,
    },
    ReportUpdateDeferred,
    ReportUpdateAborted,
    LatchLockdown,
    Emit(Event),
}

#[derive(Clone, Copy, Debug, PartialEq, Eq)]
pub enum State {
    PowerOnReset,
    PreSupervision,
    AwaitingReady(Option<ComponentId>),
    Ready,
    Updating,
    Recovering(ComponentId),
    Locked,
}

// One entry of a chain.
#[derive(Clone, Copy, Debug, PartialEq, Eq)]
pub struct Component {
    pub id: ComponentId,
    pub attrs: ComponentAttrs,
}
