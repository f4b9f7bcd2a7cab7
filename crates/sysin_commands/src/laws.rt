//! What holds of operands and commands whatever reads them.

ghost use Rattle.sysin_commands.specs.Laws.{AnyOperandsAreExact, AnyOperandsAreOne, AnyOperandsEnd};
ghost use Rattle.sysin_commands.specs.CommandLaws.{CommandsAreExact, CommandsAreOne};

/// Operands are read exactly, token by token; tokens say one operand at most, and no token goes on with one.
pub fn any_operand_laws()
    ensures exact { AnyOperandsAreExact }
    ensures one { AnyOperandsAreOne }
    ensures ends { AnyOperandsEnd }
{}

/// So are commands behind their verb, and tokens say one command at most.
pub fn command_laws()
    ensures exact { CommandsAreExact }
    ensures one { CommandsAreOne }
{}
