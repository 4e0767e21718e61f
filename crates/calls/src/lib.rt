// The calls of a house and its answers: as values, and as bytes.
#![tactic(auto)]

#[cfg(test)]
mod bare;
pub mod lines;
pub mod read;
pub mod types;
pub mod write;

ghost use Rattle.calls.specs.Stands.{ReadsBack, ReadsOnly, CallsCarried};

// The bytes of a call are read as that call, and no others are; what they mean is a call that a line carries.
pub fn calls_stand() -> u8
    ensures back { ReadsBack }
    ensures only { ReadsOnly }
    ensures carries { CallsCarried }
{
    0
}

#[cfg(test)]
mod tests {
    use super::bare::Bare;
    use super::lines::frame_of;
    use super::read::read_call;
    use super::types::{Call, Numbers, Refusal, Reply, Response, Wide};
    use super::write::{write_line, write_reply};
    use std::test::Fail;

    #[test]
    fn reads_a_start(rt: HostRuntime) -> Result<(), Fail> {
        let line = [
            0, 0, 0, 22, 0, 0, 0, 7, 1, 1, b'k', 0, 0, 0, 2, b'h', b'i', 1, 0, 0, 0, 0, 0, 0, 1, 5,
        ];
        let frame = frame_of(&line);
        assert_eq!(rt; frame.tag, 7);
        let bytes = frame.call.ok_or("no call")?;
        let Some(Call::Start { key, plan, words }) = read_call(bytes) else {
            return Err(Fail::new("no start"));
        };
        assert_eq!(rt; key.len(), 1);
        assert_eq!(rt; plan.len(), 2);
        assert_eq!(rt; words.len(), 1);
        assert_eq!(rt; words.get(0), 261);
        assert_eq!(rt; words.get(1), 0);
        assert_eq!(rt; words.checked(0), Some(261));
        assert_eq!(rt; words.checked(1), None);
        Ok(())
    }

    #[test]
    fn numbers_need_no_default(rt: HostRuntime) -> Result<(), Fail> {
        let bytes = [0, 0, 0, 1, 0, 0, 2, 0, 7];
        let numbers = Numbers::<Bare>::new(&bytes);
        assert_eq!(rt; numbers.len(), 2);
        assert_eq!(rt; numbers.checked(1).map_or(0, |number| number.widen()), 512);
        assert!(rt; numbers.checked(2).is_none());
        Ok(())
    }

    #[test]
    fn writes_an_answer(rt: HostRuntime) -> Result<(), Fail> {
        let mut out = [9; 160];
        assert_eq!(rt;
            write_line(258, &Reply::No(Refusal::NotOut), &mut out).ok_or("no room")?,
            10
        );
        assert!(rt; out[3] == 6 && out[6] == 1 && out[7] == 2);
        assert!(rt; out[8] == 0 && out[9] == 5 && out[10] == 9);
        Ok(())
    }

    #[test]
    fn writes_any_number(rt: HostRuntime) -> Result<(), Fail> {
        let mut out = [9; 160];
        assert_eq!(rt;
            write_reply(&Response::No(4_u8), &mut out).ok_or("no room")?,
            2
        );
        assert!(rt; out[0] == 0 && out[1] == 4 && out[2] == 9);
        Ok(())
    }
}
