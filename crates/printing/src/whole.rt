// A whole session on bytes is the session of crate `model`: statements in specs/whole/, proofs in proofs/whole/.
