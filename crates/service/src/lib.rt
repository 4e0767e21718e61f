// The house: it is raised on memory that lasts, and answers calls.
#![tactic(auto)]

pub mod house;
pub mod lists;
pub mod paper;

#[cfg(test)]
mod tests {
    use super::lists::copied;
    use calls::read::read_call;
    use calls::types::Call;
    use std::test::Fail;

    #[test]
    fn copies_words(rt: HostRuntime) -> Result<(), Fail> {
        let bytes = [
            1, 1, b'k', 0, 0, 0, 0, 2, 0, 0, 0, 0, 0, 0, 1, 5, 0, 0, 0, 0, 0, 0, 0, 7,
        ];
        let Some(Call::Start { words, .. }) = read_call(&bytes) else {
            return Err(Fail::new("no start"));
        };
        let out: [u64; 3] = copied(words).ok_or("no room for two words in three")?;
        assert_eq!(rt; out, [261, 7, 0]);
        let full: Option<[u64; 2]> = copied(words);
        assert_eq!(rt; full, Some([261, 7]));
        let less: Option<[u64; 1]> = copied(words);
        assert!(rt; less.is_none());
        Ok(())
    }
}
