//! Packed commands on their happy paths, with few operands and with more.
use nmgc_commands::{Form, Operands, PackedCommand};
use nmgc_world_spec::{Command, Operand};
use std::alloc::Global;
use std::test::Fail;

// More operands than fit in a command, and an operand that is no register.
const ALL: [Operand; 8] = [
    Operand::Register(0),
    Operand::Register(1),
    Operand::Shared,
    Operand::Register(63),
    Operand::Register(4),
    Operand::Register(5),
    Operand::Register(6),
    Operand::Shared,
];

// These operands, added one after the other.
fn added(alloc: Global, items: &[Operand]) -> Result<Operands, Fail> {
    let mut operands = Operands::new();
    for operand in items {
        operands.push(alloc, *operand)?;
    }
    Ok(operands)
}

// Whether a command is a constructor of r1 with tag 2 and these fields.
fn is_con(command: &Command, items: &[Operand]) -> bool {
    match command {
        Command::Con { dest, tag, fields } => *dest == 1 && *tag == 2 && fields.items() == items,
        _ => false,
    }
}

// Whether a command is a thunk of r3 with these free variables.
fn is_thunk(command: &Command, items: &[Operand]) -> bool {
    match command {
        Command::Thunk { dest, free } => *dest == 3 && free.items() == items,
        _ => false,
    }
}

// Whether a command makes an array of these values, in r2.
fn is_rec(command: &Command, items: &[Operand]) -> bool {
    match command {
        Command::Rec { dest, fields } => *dest == 2 && fields.items() == items,
        _ => false,
    }
}

// Whether the operands of a command are in a vector.
fn is_long(command: &PackedCommand) -> bool {
    matches!(
        command.form(),
        Form::LongCon { .. } | Form::LongRec { .. } | Form::LongThunk { .. }
    )
}

#[test]
fn operands_lie_in_a_command_or_behind_it(rt: HostRuntime) -> Result<(), Fail> {
    let alloc = rt.alloc();
    let all = ALL;
    for count in 0..9usize {
        let items = &all[..count];
        let con = PackedCommand::con_of(1, 2, added(alloc, items)?);
        assert!(rt; con.words_made() == 2 + count);
        assert!(rt; is_long(&con) == (count > 6));
        assert!(rt; is_con(&con.unpack(alloc)?, items));
        let rec = PackedCommand::rec_of(2, added(alloc, items)?);
        assert!(rt; rec.words_made() == 2 + count);
        assert!(rt; is_long(&rec) == (count > 6));
        assert!(rt; is_rec(&rec.unpack(alloc)?, items));
        let thunk = PackedCommand::thunk_of(3, added(alloc, items)?);
        assert!(rt; thunk.words_made() == 3 + count);
        assert!(rt; is_long(&thunk) == (count > 6));
        assert!(rt; is_thunk(&thunk.unpack(alloc)?, items));
    }
    Ok(())
}

#[test]
fn a_command_is_packed_and_unpacked(rt: HostRuntime) -> Result<(), Fail> {
    let alloc = rt.alloc();
    let con = PackedCommand::con_of(1, 2, Operands::pair(ALL[0], ALL[2]));
    let plain = con.unpack(alloc)?;
    assert!(rt; is_con(&plain, &[ALL[0], ALL[2]]));
    let again = PackedCommand::pack(alloc, &plain)?;
    assert!(rt; is_con(&again.unpack(alloc)?, &[ALL[0], ALL[2]]));
    let yields = PackedCommand { form: Form::Yield };
    assert!(rt; yields.words_made() == 0);
    let plain = yields.unpack(alloc)?;
    assert!(rt; matches!(&plain, Command::Yield));
    let number = PackedCommand::pack(alloc, &Command::Num { dest: 4, number: 7 })?;
    assert!(rt; matches!(number.form(), Form::Num { dest: 4, number: 7 }));
    Ok(())
}
