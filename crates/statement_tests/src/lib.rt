// What the sink is told, over a script host.
#![tactic(auto)]

#[cfg(test)]
mod tests {
    use binds::collector::{Span, SqliteBindValue};
    use script::player::ScriptHost;
    use sheet::read_sheet;
    use statement::stmt::{Report, Statement};
    use std::test::Fail;
    use values::SqliteType;

    // One column, one parameter, and a failure with code 5 as the first outcome.
    const FAILING: &[u8] = b"1 1 4\nC 2 id\nP 0\nF 5\nE\n";

    // The same with a row first.
    const ROW: &[u8] = b"1 1 4\nC 2 id\nP 0\nR\nL 7\nE\n";

    // An owned text of two bytes.
    const TEXT: [(SqliteType, SqliteBindValue); 1] = [(
        SqliteType::Text,
        SqliteBindValue::String(Span { start: 0, len: 2 }),
    )];

    // A statement over a script host, set up.
    fn set_up(bytes: &[u8]) -> Result<Statement<ScriptHost<'_>>, Fail> {
        let sheet = read_sheet(bytes).map_err(|_| Fail::new("bad sheet"))?;
        Ok(Statement::new(ScriptHost::new(sheet, 4096)))
    }

    #[test]
    fn none_before_the_first_return(rt: HostRuntime) -> Result<(), Fail> {
        let mut statement = set_up(ROW)?;
        assert!(rt; statement.report().is_none());
        let mut room = [0u8; 4];
        let _ = statement.bind(9, &TEXT, b"", b"xy", &mut room);
        assert!(rt; statement.report().is_none());
        Ok(())
    }

    #[test]
    fn a_failure_tells_its_code(rt: HostRuntime) -> Result<(), Fail> {
        let mut statement = set_up(FAILING)?;
        let mut room = [0u8; 4];
        let _ = statement.bind(9, &TEXT, b"", b"xy", &mut room);
        let _ = statement.execute(b"", &mut room);
        assert_eq!(rt; statement.report(), Some(Report { query: 9, code: 5 }));
        Ok(())
    }

    #[test]
    fn a_row_and_an_end_tell_0(rt: HostRuntime) -> Result<(), Fail> {
        let mut statement = set_up(ROW)?;
        let mut room = [0u8; 4];
        let _ = statement.bind(1, &TEXT, b"", b"xy", &mut room);
        let _ = statement.execute(b"", &mut room);
        assert_eq!(rt; statement.report(), Some(Report { query: 1, code: 0 }));
        let _ = statement.bind(2, &TEXT, b"", b"xy", &mut room);
        let _ = statement.end(b"", &mut room);
        assert_eq!(rt; statement.report(), Some(Report { query: 2, code: 0 }));
        Ok(())
    }

    #[test]
    fn an_undone_bind_tells_nothing(rt: HostRuntime) -> Result<(), Fail> {
        let mut statement = set_up(ROW)?;
        let mut room = [7u8; 4];
        let unpaired = [(
            SqliteType::Binary,
            SqliteBindValue::String(Span { start: 0, len: 2 }),
        )];
        assert!(rt; statement.bind(3, &unpaired, b"", b"xy", &mut room).is_err());
        assert!(rt; statement.report().is_none());
        assert_eq!(rt; room, [0, 0, 7, 7]);
        Ok(())
    }
}
