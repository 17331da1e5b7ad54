//! Laws of the acts of commands: each is the contract of a function that does nothing.
ghost use Rattle.std.specs.Prelude.{◌≡◌, true};
ghost use Rattle.cf_view.specs.declared.Act.{Act};
ghost use Rattle.cf_policy.specs.declared.Protocol.{Protocol};
ghost use Rattle.cf_acts.specs.Acts.{can_have};
ghost use Rattle.cf_acts.specs.Commands.{IsOfCommand};
ghost use Rattle.cf_acts.specs.Ranges.{IsActWithin, ValuesAreSettled};

/// Each act of a command that the reader of a protocol reads is in the table of the protocol.
pub fn tables_have_acts_of_commands()
    ensures { (protocol : Protocol) (act : Act) → IsOfCommand protocol act → can_have protocol act ≡ true }
{}

/// The numbers of each such act are in the ranges of a policy.
pub fn acts_are_within()
    ensures { (protocol : Protocol) (act : Act) → IsOfCommand protocol act → IsActWithin act }
{}

/// Its code and group settle whether it has a value.
pub fn values_are_settled()
    ensures { ValuesAreSettled }
{}
