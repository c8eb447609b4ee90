// The findings, as plain data, and the verdicts. A time in the findings is a whole number whose fourteen decimal digits are the date and time.
#![tactic(auto)]

ghost use Rattle.std.specs.Prelude.{◌≡◌};
ghost use Rattle.verdicts.specs.Verdict.{verdict_number};

// The first and the last time of a certificate.
#[derive(Clone, Copy, PartialEq, Eq, Debug)]
pub struct Dates {
    pub first: u64,
    pub last: u64,
}

// What was found of a certificate: where it was revoked, when.
#[derive(Clone, Copy, PartialEq, Eq, Debug)]
pub struct CertificateFacts {
    pub chain: bool,
    pub usage: bool,
    pub dates: Dates,
    pub revocation: Option<u64>,
}

// What was found of the seal: where it was withdrawn, when.
#[derive(Clone, Copy, PartialEq, Eq, Debug)]
pub struct SealFacts {
    pub withdrawn: Option<u64>,
}

// The stamp unchecked, bad, or good at a time.
// Kept: three states by their names; an `Option` has two.
#[derive(Clone, Copy, PartialEq, Eq, Debug)]
pub enum Stamping {
    Unchecked,
    Bad,
    Good(u64),
}

// What was found of the stamp.
#[derive(Clone, Copy, PartialEq, Eq, Debug)]
pub struct StampFacts {
    pub state: Stamping,
}

// The findings; the two digests, which are bytes, come beside them.
#[derive(Clone, Copy, PartialEq, Eq, Debug)]
pub struct Findings {
    pub signature: bool,
    pub sealing: bool,
    pub now: u64,
    pub maker: CertificateFacts,
    pub signer: CertificateFacts,
    pub seal: SealFacts,
    pub stamp: StampFacts,
}

// A verdict: valid, or what fails.
#[derive(Clone, Copy, PartialEq, Eq, Debug)]
pub enum Verdict {
    Valid = 0,
    SignatureBad = 21,
    SignerUnlisted,
    SealBad,
    MakerBad,
    MakerOutOfForce,
    OutsidePeriod,
    SealWithdrawn,
    SignerBad,
    OutsideDates,
    SignerRevoked,
    DigestDiffers,
    StampBad,
    AfterStamp,
    SignerOutAtStamp,
}

impl Verdict {
    // The number that the rules give it.
    pub fn number(self) -> u8
        ensures { result ≡ verdict_number self }
    {
        self as u8
    }
}

// A verdict, and whether the notice goes with it.
#[derive(Clone, Copy, PartialEq, Eq, Debug)]
pub struct Judgement {
    pub verdict: Verdict,
    pub notice: bool,
}
