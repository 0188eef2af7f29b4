// Seats: the session table of a side as the records that a call takes.
use schedules::side::{Row, Side};
use sessions::{PARTIES, Session};

fn session(row: Row) -> Session {
    let [
        begun,
        code,
        entry,
        first,
        second,
        stage,
        target,
        at,
        level,
        low,
        high,
        last,
        undo,
        order,
        asked,
    ] = row;
    Session {
        begun,
        code,
        entry,
        first,
        second,
        stage,
        target,
        at,
        level,
        low,
        high,
        last,
        undo,
        order,
        asked,
    }
}

fn row(session: Session) -> Row {
    let Session {
        begun,
        code,
        entry,
        first,
        second,
        stage,
        target,
        at,
        level,
        low,
        high,
        last,
        undo,
        order,
        asked,
    } = session;
    [
        begun, code, entry, first, second, stage, target, at, level, low, high, last, undo, order,
        asked,
    ]
}

// The session table of a side.
pub fn table(s: &Side) -> [Session; PARTIES] {
    s.table.map(session)
}

pub fn set_table(s: &mut Side, table: [Session; PARTIES]) {
    s.table = table.map(row);
}
